//! Lines over a table of nodes, and over a store with odd numbers.
use crate::asserts::{assert_same, assert_same_in, assert_true};
use btree_ext::BTreeExt;
use btree_item::Address;
use btree_more_stores::{FixedSlab, OddSlab};
use btree_node::{ClearNodes, Node};
use btree_session::{Session, drive};
use btree_store::SlabMut;
use std::alloc::Global;
use std::process::Abort;
use std::test::Fail;

type Odd = OddSlab<Node<u64, u64>>;

// Adds lines that insert the keys from 0 on, and a reply to each.
fn push_insertions(lines: &mut String, replies: &mut String, count: u64) -> Result<(), Fail> {
    for key in 0..count {
        write!(lines, "insert {key} {key}\n")?;
        replies.push_str("none\n")?;
    }
    Ok(())
}

// Adds lines that remove the keys from 0 on, and a reply to each.
fn push_removals(lines: &mut String, replies: &mut String, count: u64) -> Result<(), Fail> {
    for key in 0..count {
        write!(lines, "remove {key}\n")?;
        write!(replies, "some {key}\n")?;
    }
    Ok(())
}

// Drives lines to their end, and compares the replies.
fn check_lines<C: ClearNodes<u64, u64>>(
    rt: &impl Abort,
    session: &mut Session<C>,
    lines: &str,
    replies: &str,
    alloc: Global,
) {
    let (mut input, mut output) = (lines.as_bytes(), Vec::new(alloc));
    let end = drive(alloc, session, &mut input, &mut output);
    assert_same(rt, end, Ok(()));
    assert_same(rt, output.as_slice(), replies.as_bytes());
}

// Drives insertions over a session in a store that is there. As many as given are taken, and the next one has the other replies.
fn fill_table<C: ClearNodes<u64, u64> + Drop>(
    rt: &impl Abort,
    nodes: C,
    taken: u64,
    rest: &str,
    alloc: Global,
) -> Result<(), Fail> {
    if nodes.len() != 0 {
        panic!(rt; "the store is not empty");
    }
    let mut session: Session<C> = Session::in_store(nodes);
    let (mut lines, mut replies) = (String::new(alloc), String::new(alloc));
    push_insertions(&mut lines, &mut replies, taken)?;
    write!(lines, "insert {taken} 0\nnodes\nlen\n")?;
    replies.push_str(rest)?;
    check_lines(rt, &mut session, lines.as_str(), replies.as_str(), alloc);
    Ok(())
}

#[test]
fn a_full_table_refuses_a_line(rt: HostRuntime) -> Result<(), Fail> {
    let eleven: FixedSlab<Node<u64, u64>, 11> = SlabMut::empty(());
    fill_table(&rt, eleven, 43, "refused store\n9\n43\n", rt.alloc())?;
    let none: FixedSlab<Node<u64, u64>, 0> = SlabMut::empty(());
    fill_table(&rt, none, 0, "refused store\n0\n0\n", rt.alloc())
}

// Checks that the number of each node is odd.
fn check_numbers<C: ClearNodes<u64, u64>>(rt: &impl Abort, session: &Session<C>) {
    let map = session.map();
    let mut next = Some(map.first_back_address());
    for _ in 0..map.len().saturating_add(map.node_count()) {
        let Some(at) = next else {
            panic!(rt; "an address is missing");
        };
        assert_same_in(rt, at.id, at.id % 2 == 1, true);
        assert_true(rt, map.is_valid(at));
        next = map.next_back_address(at);
    }
    assert_same(rt, next, None);
}

// Drives lines over a new session, after the insertion and removal of keys from 0 on, and looks at the numbers of the nodes.
fn drive_odd<C: ClearNodes<u64, u64> + Drop>(
    rt: &impl Abort,
    origin: C::Origin,
    counts: (u64, u64),
    rest: (&str, &str),
    alloc: Global,
) -> Result<(), Fail> {
    let mut session: Session<C> = Session::new(origin);
    let (mut lines, mut replies) = (String::new(alloc), String::new(alloc));
    push_insertions(&mut lines, &mut replies, counts.0)?;
    push_removals(&mut lines, &mut replies, counts.1)?;
    lines.push_str(rest.0)?;
    replies.push_str(rest.1)?;
    check_lines(rt, &mut session, lines.as_str(), replies.as_str(), alloc);
    check_numbers(rt, &session);
    Ok(())
}

#[test]
fn shapes_are_the_same_over_odd_numbers(rt: HostRuntime) -> Result<(), Fail> {
    for (counts, rest) in [
        ((9, 0), ("shape\nnodes\n", "((0 1 2 3) 4 (5 6 7 8))\n3\n")),
        (
            (44, 8),
            (
                "shape\nnodes\n",
                "((8 9 10 11 12 13) 14 (15 16 17 18) 19 (20 21 22 23) 24 (25 26 27 28) 29 (30 31 32 33) 34 (35 36 37 38) 39 (40 41 42 43))\n8\n",
            ),
        ),
        (
            (9, 0),
            (
                "seek 4\ntake\nshape\nput 4 4\nshape\n",
                "found 4\npair 4 4\n((0 1 2) 3 (5 6 7 8))\nok\n((0 1 2) 3 (4 5 6 7 8))\n",
            ),
        ),
    ] {
        drive_odd::<Odd>(&rt, rt.alloc(), counts, rest, rt.alloc())?;
    }
    Ok(())
}
