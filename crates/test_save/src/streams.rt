//! Readers and writers that fail, and memory that is refused.
use crate::asserts::{assert_same, assert_same_in, assert_true, given};
use crate::maps::{Slots, saved_squares, squares};
use crate::verdicts::{Verdict, verdict_of};
use btree_map::BTreeMap;
use btree_more_stores::{Fill, SlotStore};
use btree_node::{Node, NodesMut};
use btree_save::{SaveError, bytes_of_map, map_of_bytes, open, save};
use std::alloc::Global;
use std::io;
use std::io::{ErrorKind, Read, Write};
use std::process::Abort;
use test_support::Refusing;

// Gives a byte at each read, and fails in place of the byte at `cut`.
#[derive(Drop)]
struct Flaky<'a> {
    bytes: &'a [u8],
    at: usize,
    cut: usize,
}

impl Read for Flaky<'_> {
    fn read(&mut self, buf: &mut [u8]) -> io::Result<usize> {
        if self.at == self.cut {
            return Err(io::Error::from(ErrorKind::BrokenPipe));
        }
        match (self.bytes.get(self.at), buf.first_mut()) {
            (Some(byte), Some(place)) => {
                *place = *byte;
                self.at = self.at.saturating_add(1);
                Ok(1)
            }
            _ => Ok(0),
        }
    }
}

// Opens a map from a reader that fails at `cut`.
fn open_to<C: Fill<Node<u64, u64>> + Drop>(
    alloc: Global,
    origin: C::Origin,
    bytes: &[u8],
    cut: usize,
) -> Verdict {
    let mut input = Flaky { bytes, at: 0, cut };
    match open::<u64, u64, C, Global, Flaky>(alloc, origin, &mut input) {
        Ok(_map) => Verdict::Opened,
        Err(error) => verdict_of(error),
    }
}

// A map is not opened where its reader fails, also after the last byte, and is where it does not.
fn read_to_each<C: Fill<Node<u64, u64>, Origin = Global> + Drop>(rt: &impl Abort, alloc: Global) {
    let bytes = saved_squares::<C>(rt, alloc, alloc, 9);
    for cut in 0..=bytes.len() {
        let found = open_to::<C>(alloc, alloc, &bytes, cut);
        assert_same_in(rt, cut, found, Verdict::Read);
    }
    let found = open_to::<C>(alloc, alloc, &bytes, usize::MAX);
    assert_same(rt, found, Verdict::Opened);
}

#[test]
fn readers_fail(rt: HostRuntime) {
    read_to_each::<Slots>(&rt, rt.alloc());
}

// Takes at most three bytes at each write, and fails once it has `most`.
#[derive(Drop)]
struct Slow {
    written: Vec<u8>,
    most: usize,
}

impl Write for Slow {
    fn write(&mut self, buf: &[u8]) -> io::Result<usize> {
        if self.written.len() >= self.most {
            return Err(io::Error::from(ErrorKind::BrokenPipe));
        }
        let len = buf.len().min(3);
        let (front, _) = buf.split_at(len);
        self.written.extend_from_slice(front)?;
        Ok(len)
    }

    fn flush(&mut self) -> io::Result<()> {
        Ok(())
    }
}

// Saves a map to a writer that fails once it has `most` bytes. Returns whether it is saved. What is written is a front of its bytes.
fn is_written<C: NodesMut<u64, u64>>(
    rt: &impl Abort,
    alloc: Global,
    map: &BTreeMap<u64, u64, C>,
    most: usize,
) -> bool {
    let bytes = given(rt, bytes_of_map(alloc, map));
    let mut out = Slow {
        written: Vec::new(alloc),
        most,
    };
    let is_saved = match save(alloc, map, &mut out) {
        Ok(()) => true,
        Err(SaveError::Write(error)) => {
            assert_same(rt, error.kind(), ErrorKind::BrokenPipe);
            false
        }
        Err(SaveError::Memory) => panic!(rt; "there is memory"),
    };
    assert_true(rt, bytes.starts_with(&out.written));
    assert_same(rt, out.written.len() == bytes.len(), is_saved);
    is_saved
}

// The map {7: 49} has 96 bytes.
fn write_one<C: NodesMut<u64, u64> + Drop>(rt: &impl Abort, alloc: Global, origin: C::Origin) {
    let mut map: BTreeMap<u64, u64, C> = BTreeMap::new(origin);
    assert_true(rt, map.insert(7, 49).is_ok());
    for most in 0..100 {
        let is = is_written(rt, alloc, &map, most);
        assert_same_in(rt, most, is, most > 93);
    }
}

// 96 bytes are 32 writes of three: a writer that fails once it has 94 has taken all by then.
#[test]
fn writers_fail(rt: HostRuntime) {
    write_one::<Slots>(&rt, rt.alloc(), rt.alloc());
}

// Saves a map with memory that refuses the `at`-th allocation. It is saved exactly if none was refused, and else nothing is written.
fn save_with<C: NodesMut<u64, u64>>(
    rt: &impl Abort,
    alloc: Global,
    memory: &Refusing<Global>,
    map: &BTreeMap<u64, u64, C>,
    at: u64,
) -> bool {
    let mut file = Vec::new(alloc);
    memory.refuse(at);
    let is_saved = match save(memory, map, &mut file) {
        Ok(()) => true,
        Err(SaveError::Memory) => {
            assert_same(rt, file.len(), 0);
            false
        }
        Err(SaveError::Write(_)) => panic!(rt; "the writer fails"),
    };
    assert_same_in(rt, at, memory.refuses() == 0, !is_saved);
    is_saved
}

fn save_without_memory<C: NodesMut<u64, u64> + Drop>(
    rt: &impl Abort,
    alloc: Global,
    origin: C::Origin,
) {
    let memory = Refusing::over(alloc, 0);
    let map: BTreeMap<u64, u64, C> = squares(rt, origin, 44);
    assert_true(rt, !save_with(rt, alloc, &memory, &map, 1));
    for at in 2..40 {
        save_with(rt, alloc, &memory, &map, at);
    }
    assert_true(rt, save_with(rt, alloc, &memory, &map, 40));
}

#[test]
fn memory_for_the_bytes_is_refused(rt: HostRuntime) {
    save_without_memory::<Slots>(&rt, rt.alloc(), rt.alloc());
}

// Opens bytes with memory that refuses the `at`-th allocation. They are opened exactly if none was refused, and else the store has no room.
fn open_with<'m, C: Fill<Node<u64, u64>> + Drop>(
    rt: &impl Abort,
    origin: C::Origin,
    memory: &'m Refusing<Global>,
    bytes: &[u8],
    at: u64,
) -> Verdict {
    memory.refuse(at);
    let found = match map_of_bytes::<u64, u64, C>(origin, bytes) {
        Ok(_map) => Verdict::Opened,
        Err(error) => verdict_of(error),
    };
    let expected = if memory.refuses() == 0 {
        Verdict::Store
    } else {
        Verdict::Opened
    };
    assert_same_in(rt, at, found, expected);
    found
}

// A store over memory that refuses.
type Refused<'m> = SlotStore<Node<u64, u64>, &'m Refusing<Global>>;

// Opens bytes with memory that refuses each allocation in turn, the first one at least, until no more are needed.
fn open_without_memory<'m, C: Fill<Node<u64, u64>, Origin = &'m Refusing<Global>> + Drop>(
    rt: &impl Abort,
    memory: &'m Refusing<Global>,
    bytes: &[u8],
) {
    let first = open_with::<C>(rt, memory, memory, bytes, 1);
    assert_same(rt, first, Verdict::Store);
    for at in 2..40 {
        open_with::<C>(rt, memory, memory, bytes, at);
    }
    let last = open_with::<C>(rt, memory, memory, bytes, 40);
    assert_same(rt, last, Verdict::Opened);
}

#[test]
fn memory_for_the_nodes_is_refused(rt: HostRuntime) {
    let bytes = saved_squares::<Slots>(&rt, rt.alloc(), rt.alloc(), 44);
    let memory = Refusing::over(rt.alloc(), 0);
    open_without_memory::<Refused>(&rt, &memory, &bytes);
}
