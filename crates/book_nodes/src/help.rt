//! The language of the lines.
use book_text::Reply;

const LINES: [&str; 27] = [
    "what the lines may say, a line for each group",
    "new: all of it empty, over new stores. over slab, over refusing: the desk that the lines go to",
    "refuse N: the N-th growth of the refusing desk's memory from now on. insist CALL: each growth of the call refused in turn, and how many were",
    "each COUNT STEP CALL; CALL: the calls for each number below COUNT, in steps of STEP or down, where # is the number; the last reply of each",
    "n, m: two nodes in no tree. t: a raw tree. s: a session. c: a map that a cursor edits. KEY=VALUE is an item. OFFSET: a number or -1",
    "n, m: leaf [under PARENT] ITEMS, internal [under PARENT] CHILD ITEM CHILD ..: another node. PARENT, CHILD: a number. show: such a text",
    "n, m: parent item_count child_count first_child_id items iter branches children children_with_separators",
    "n, m: balance is_full is_overflowing is_underflowing; child_index CHILD; child_id child_id_opt separators INDEX",
    "n, m: get offset_of kind_offset_of KEY: kind_offset_of is the call of the leaf or of the internal node itself",
    "n, m: get_mut find_mut insert_by_key KEY=VALUE; item remove leaf_remove OFFSET; item_mut replace OFFSET ITEM",
    "n, m: insert OFFSET ITEM [CHILD]; push_left push_right ITEM [CHILD]; pop_left pop_right remove_last remove_rightmost_leaf",
    "n, m: set_parent PARENT; validate PARENT MIN MAX: each may be none; merge LEFT RIGHT: the item between two children is taken out",
    "n, m: split: the other node is the right part; append ITEM: with what the other node holds; clone: the other node is the copy",
    "NODE: T is the root, T02 a path to a node, M the marked one, unused one that is not there. ADDRESS: NODE:OFFSET or nowhere",
    "t: build ((0 1) 3 (4 5 6 7)): the keys in brackets; build [24]: the number of items of each leaf; from_map KEYS: the tree of a map; a text that is no tree, or a refused node: not built",
    "t: to_map: the list of a map of the tree, or the fault for which it is refused; the tree is there again then; to_map insert ITEM: the map's insert",
    "t: tower LEVELS: internal nodes, each the first child of the one above, whose other children are one leaf",
    "t: shape counts draw len limit nodes root_id validate clear marked; set_len set_limit N; set_root_id NODE, which may be none",
    "t: mark has_node node is_off_by_one release_node remove_rightmost_leaf_of NODE; set_parent NODE NODE, the parent may be none",
    "t: node_mut NODE leaf .., node_mut NODE internal ..: the node is written; allocate_node leaf .., allocate_node internal ..: it is marked",
    "t: validate_node NODE PARENT MIN MAX: each but the first may be none; is_valid item place print ADDRESS",
    "t: insert_exactly_at ADDRESS ITEM [NODE]; rebalance NODE ADDRESS",
    "t: rebalance_each rebalance_everywhere NODE TEXT: for each address of the tree that the text builds, a new one each time",
    "s: run COMMAND, COMMAND, ..: insert put KEY=VALUE; get remove seek KEY; next prev take clear",
    "s: drive TEXT: a slash is a newline, and \\r, \\t, \\s and \\xff are a carriage return, a tab, a space and the byte 255",
    "c: run STEP, STEP, ..: peek next remove; insert KEY=VALUE",
    "s, c: list shape len nodes validate",
];

/// Adds what the lines may say.
pub(crate) fn help(reply: &mut Reply) {
    let mut is_first = true;
    for line in &LINES {
        if !is_first {
            reply.line();
        }
        is_first = false;
        reply.word(line);
    }
}
