//! A counter takes no bytes, by itself and beside other values.
use crate::asserts::assert_same;
use btree_steps::Steps;
use std::mem;

const _: () = prove!(mem::size_of::<Steps>() == 0);

#[test]
fn takes_no_bytes(rt: HostRuntime) {
    let mut steps = Steps::new();
    steps.tick();
    assert_same(&rt, mem::size_of::<Steps>(), 0);
    assert_same(&rt, mem::size_of_val(&(7u8, steps)), 1);
}
