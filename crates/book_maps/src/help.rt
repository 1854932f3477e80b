//! The language of the lines.
use book_text::Reply;

const LINES: [&str; 37] = [
    "what the lines may say, a line for each group",
    "new: empty maps and sets over new stores. over slab, over refusing: the desk that the lines go to",
    "refuse N: on the refusing desk, the N-th node or growth of memory from now on. insist CALL: each one of the call refused in turn, and how many were",
    "in_turn NAME VERB N: so for extend, extend_copied, from_iter or append of the numbers below N, on a new desk",
    "each COUNT STEP CALL; CALL: the calls for each number below COUNT, in steps of STEP or down, where # is the number; the last reply of each",
    "KEY=VALUE is a pair. ADDRESS: nowhere, a path and an offset as T:0 or T02:-1, or of:KEY, that of a key or of its gap",
    "NODE: T is the root, T02 a path to a node, of:KEY that of an address, unused one that is not there",
    "WRITE: =VALUE or +NUMBER. ACTION: a WRITE, none, turn:VALUE or flip:VALUE. TEST: all, nothing, even, odd, KEY or KEY|KEY",
    "ENDS: f and b take from the front and the back, h is the hint, l the number left, e whether a range is empty, n the nodes that into_iter holds",
    "a, b: len limit is_empty nodes height root list debug shape draw validate clear into_raw from_raw first_key_value last_key_value pop_first pop_last",
    "a, b: get contains_key get_key_value index remove remove_entry take KEY; insert replace KEY=VALUE; get_mut KEY WRITE; update KEY ACTION",
    "a, b: entry KEY; insert_entry KEY=VALUE; or_insert or_insert_with and_modify KEY=VALUE WRITE; or_insert_with_key or_default KEY WRITE",
    "a, b: occupied KEY STEPS: key get insert=VALUE get_mut=VALUE, the last into_mut=VALUE remove remove_entry; first_entry last_entry STEP or debug",
    "a, b: vacant KEY STEP: key debug into_key insert=VALUE",
    "a, b: first_item_address last_item_address first_back_address last_valid_address visit_backs visit_fronts; address_of address_of_counted KEY",
    "a, b: is_valid item pair_at normalize leaf_address next_item_address previous_item_address next_item_or_back_address ADDRESS",
    "a, b: next_back_address previous_front_address ADDRESS; fits_at replaces_at ADDRESS KEY",
    "a, b: has_node node NODE; get_in address_in key_fits_in NODE KEY; validate_node NODE PARENT LOW HIGH",
    "a, b: insert_at insert_exactly_at replace_at ADDRESS KEY=VALUE; remove_at ADDRESS; replace_key_at ADDRESS KEY; replace_value_at ADDRESS =VALUE",
    "a, b: item_mut ADDRESS WRITE; update_at ADDRESS ACTION; get_mut_in NODE KEY WRITE; update_in NODE KEY ACTION",
    "a, b: iter keys values into_iter into_keys into_values ENDS; iter_mut values_mut ENDS WRITE; loop into_loop",
    "a, b: range LOW HIGH ENDS; range_mut LOW HIGH ENDS WRITE; is_valid_range LOW HIGH: [3 (3 and 3] 3) are bounds, .. is none",
    "a, b: remove_range LOW HIGH; stored: the nodes that the store says it has",
    "a, b: get_by contains_key_by get_key_value_by address_by remove_by remove_entry_by QUERY; get_mut_by QUERY WRITE; range_by QUERY QUERY ENDS",
    "QUERY: 3, <3 or >3 is a key, or the place before or after it",
    "a, b: entries_mut STEPS: peek peek_mut next next_item remove hint empty KEY=VALUE fits:KEY skip:N, where the lent ones take a WRITE as next+1",
    "a, b: entries_mut_from LOW STEPS: the same from a bound on; address_from LOW: where it starts",
    "a, b: drain finish TEST N WRITE; retain TEST WRITE: N pairs are taken; +calls adds how often the test was called; drain TEST N hint",
    "a, b: fill COUNT STEP; insert_each insert_gaps update_each put_back_each PAIRS; remove_each START STEP PAIRS: whether all was right",
    "a, b: neighbours; meets N: whether an iterator gives those of fill, N from the front; cut PLACE N: a cursor those of the other map",
    "a, b: moves COUNT STEP STEP: the keys below COUNT inserted and removed, whether no more nodes moved than there were calls",
    "a, b: extend from_iter PAIRS; append clone extend_copied equals compare same_hash plain_hash same_nodes: with the other map; split_off KEY: the pairs of the other map from there on; limited N: an empty map with a limit",
    "p, q: len limit is_empty nodes list debug clear first last pop_first pop_last; insert replace contains get remove take ELEMENT",
    "p, q: iter into_iter ENDS; into_loop; range LOW HIGH ENDS; remove_range LOW HIGH; drain finish TEST N; retain TEST",
    "p, q: contains_by get_by remove_by take_by QUERY; range_by QUERY QUERY ENDS",
    "p, q: extend from_iter ELEMENTS; append clone extend_copied equals compare same_hash plain_hash: with the other set; split_off ELEMENT: the elements of the other set from there on; limited N: an empty set with a limit",
    "p, q: union intersection difference symmetric_difference is_disjoint is_subset is_superset: with the other set",
];

/// Adds what the lines may say.
pub(crate) fn help(reply: &mut Reply) {
    let mut is_first = true;
    for line in &LINES {
        if !is_first {
            reply.line();
        }
        is_first = false;
        reply.word(line);
    }
}
