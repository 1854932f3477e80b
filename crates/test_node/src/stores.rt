//! A store over memory in which one allocation is refused.
use crate::asserts::{assert_same, assert_same_in, assert_true};
use btree_store::{Slab, SlabMut, SlabStore};
use std::alloc::Global;
use std::process::Abort;
use std::test::Fail;
use test_support::Refusing;

const VALUES: u32 = 200;

// Checks that the values from 0 on are under these numbers, and that no other number is used.
fn check_content<S: Slab<u32>>(rt: &impl Abort, store: &S, numbers: &[usize]) {
    assert_same(rt, store.len(), numbers.len());
    for (value, id) in (0..VALUES).zip(numbers) {
        assert_same(rt, store.get(*id).copied(), Some(value));
    }
}

// Inserts the values from 0 on, and returns which of them were refused. After a refusal the store is as before, and accepts the same
// value the next time.
fn fill<S: SlabMut<u32>>(rt: &impl Abort, store: &mut S, alloc: Global) -> Result<Vec<u32>, Fail> {
    let mut refused = Vec::new(alloc);
    let mut numbers = Vec::new(alloc);
    for value in 0..VALUES {
        let mut answer = store.insert(value);
        if answer.is_err() {
            assert_same(rt, answer, Err(value));
            check_content(rt, store, numbers.as_slice());
            refused.push(value)?;
            answer = store.insert(value);
        }
        let Ok(id) = answer else {
            return Err(Fail::from("refused twice"));
        };
        numbers.push(id)?;
    }
    check_content(rt, store, numbers.as_slice());
    Ok(refused)
}

// Fills a new store.
fn fill_new<S: SlabMut<u32> + Drop>(
    rt: &impl Abort,
    origin: S::Origin,
    alloc: Global,
) -> Result<Vec<u32>, Fail> {
    S::note_fits();
    let mut store = S::empty(origin);
    fill(rt, &mut store, alloc)
}

// When a store grows is not specified. So each growth is refused in turn, until a run has fewer growths than that.
#[test]
fn each_growth_is_refused_in_turn(rt: HostRuntime) -> Result<(), Fail> {
    let mut places: Vec<u32> = Vec::new(rt.alloc());
    for nth in 1..u64::from(VALUES) {
        let memory = Refusing::over(rt.alloc(), nth);
        let refused = fill_new::<SlabStore<u32, &Refusing<Global>>>(&rt, &memory, rt.alloc())?;
        let Some(place) = refused.first() else {
            assert_true(&rt, memory.refuses() > 0);
            assert_same(&rt, places.first(), Some(&0));
            assert_true(&rt, places.is_sorted_by(|earlier, later| earlier < later));
            return Ok(());
        };
        assert_same_in(&rt, nth, (refused.len(), memory.refuses()), (1, 0));
        places.push(*place)?;
    }
    Err(Fail::from("each run met a refusal"))
}
