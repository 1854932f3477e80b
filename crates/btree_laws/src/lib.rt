//! The list that the nodes of a tree represent, and the places of its addresses: definitions and their laws, and no code.
#![tactic(auto)]
