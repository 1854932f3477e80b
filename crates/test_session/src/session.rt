//! Sessions over readers and writers that fail, over many lines, and without memory for the replies.
use crate::asserts::{assert_same, assert_same_in, assert_true};
use crate::streams::{Piece, Pieces, Slow};
use btree_ext::BTreeExt;
use btree_node::{ClearNodes, Node};
use btree_session::{Command, Reply, Session, Stop, drive, run};
use btree_store::SlabStore;
use std::alloc::Global;
use std::cell::Cell;
use std::io;
use std::io::{ErrorKind, Write};
use std::process::Abort;
use std::test::Fail;
use test_support::{Refusing, content_of};

type Store = SlabStore<Node<u64, u64>>;

// One run over pieces of input: how it ends, what is written and flushed, and how much was flushed at each read.
#[derive(Drop)]
struct Run<'a> {
    pieces: &'a [Piece<'a>],
    most: usize,
    flushes: bool,
    end: Result<(), Stop>,
    written: &'a [u8],
    seen: &'a [usize],
}

const READS: [Run<'static>; 6] = [
    Run {
        pieces: &[
            Piece::Bytes(b"insert 1 10\nget 1\nge"),
            Piece::Bytes(b"t 2"),
            Piece::Fails(ErrorKind::Interrupted),
            Piece::Bytes(b"\r\n"),
            Piece::Bytes(b"get 1"),
        ],
        most: 100,
        flushes: true,
        end: Ok(()),
        written: b"none\nsome 10\nnone\nsome 10\n",
        seen: &[0, 13, 13, 13, 18, 18, 26],
    },
    Run {
        pieces: &[
            Piece::Bytes(b"insert 1 10\nget"),
            Piece::Fails(ErrorKind::ConnectionReset),
            Piece::Bytes(b" 1\n"),
        ],
        most: 100,
        flushes: true,
        end: Err(Stop::Input),
        written: b"none\n",
        seen: &[0, 5],
    },
    Run {
        pieces: &[
            Piece::Bytes(b"insert 1 10\n"),
            Piece::Bytes(b"get 1\nget 1\n"),
            Piece::Bytes(b"get 1\n"),
        ],
        most: 9,
        flushes: true,
        end: Err(Stop::Output),
        written: b"none\nsome 1",
        seen: &[0, 5],
    },
    Run {
        pieces: &[Piece::Bytes(b"insert 1 10\njump\nget 1\n")],
        most: 100,
        flushes: true,
        end: Err(Stop::NotACommand(2)),
        written: b"none\n",
        seen: &[0],
    },
    Run {
        pieces: &[Piece::Bytes(b"insert 1 10\njump\n")],
        most: 0,
        flushes: true,
        end: Err(Stop::Output),
        written: b"",
        seen: &[0],
    },
    Run {
        pieces: &[Piece::Bytes(b"insert 1 10\n")],
        most: 100,
        flushes: false,
        end: Err(Stop::Output),
        written: b"none\n",
        seen: &[0],
    },
];

// Drives an empty session over one run's input. A command that was run keeps its effect, whether its reply could be written or not.
fn check_run<C: ClearNodes<u64, u64> + Drop>(
    rt: &impl Abort,
    wanted: &Run<'_>,
    origin: C::Origin,
    alloc: Global,
) {
    let flushed = Cell::new(0);
    let mut session: Session<C> = Session::new(origin);
    let mut input = Pieces {
        pieces: wanted.pieces,
        next: 0,
        flushed: &flushed,
        seen: Vec::new(alloc),
    };
    let mut output = Slow {
        written: Vec::new(alloc),
        flushed: &flushed,
        most: wanted.most,
        flushes: wanted.flushes,
    };
    let result = drive(alloc, &mut session, &mut input, &mut output);
    assert_same_in(rt, wanted.written, result, wanted.end);
    assert_same(rt, output.written.as_slice(), wanted.written);
    assert_same_in(rt, wanted.written, input.seen.as_slice(), wanted.seen);
    assert_same(rt, session.map().get(&1).copied(), Some(10));
    if result != Err(Stop::Output) {
        assert_same(rt, flushed.get(), wanted.written.len());
    }
}

#[test]
fn replies_are_written_before_more_is_read(rt: HostRuntime) {
    for wanted in READS.iter() {
        check_run::<Store>(&rt, wanted, rt.alloc(), rt.alloc());
    }
}

// A read fails with this kind of error after a line and a half.
fn check_failed_read<C: ClearNodes<u64, u64> + Drop>(
    rt: &impl Abort,
    kind: ErrorKind,
    end: Stop,
    origin: C::Origin,
    alloc: Global,
) {
    let pieces = [
        Piece::Bytes(b"insert 1 10\nget"),
        Piece::Fails(kind),
        Piece::Bytes(b" 1\n"),
    ];
    let wanted = Run {
        pieces: pieces.as_slice(),
        most: 100,
        flushes: true,
        end: Err(end),
        written: b"none\n",
        seen: &[0, 5],
    };
    check_run::<C>(rt, &wanted, origin, alloc);
}

#[test]
fn a_failed_read_is_the_end_of_input_or_of_memory(rt: HostRuntime) {
    for (kind, end) in [
        (ErrorKind::OutOfMemory, Stop::Memory),
        (ErrorKind::NotFound, Stop::Input),
        (ErrorKind::PermissionDenied, Stop::Input),
        (ErrorKind::ConnectionReset, Stop::Input),
        (ErrorKind::BrokenPipe, Stop::Input),
        (ErrorKind::WouldBlock, Stop::Input),
        (ErrorKind::InvalidInput, Stop::Input),
        (ErrorKind::InvalidData, Stop::Input),
        (ErrorKind::TimedOut, Stop::Input),
        (ErrorKind::UnexpectedEof, Stop::Input),
        (ErrorKind::StorageFull, Stop::Input),
        (ErrorKind::QuotaExceeded, Stop::Input),
        (ErrorKind::WriteZero, Stop::Input),
        (ErrorKind::Other, Stop::Input),
    ] {
        check_failed_read::<Store>(&rt, kind, end, rt.alloc(), rt.alloc());
    }
}

// Adds a line for each key that inserts it, and then lines without words, of more than a mebibyte. The last line lists the pairs.
fn push_lines(lines: &mut String, keys: (u64, u64)) -> Result<(), Fail> {
    for key in keys.0..keys.1 {
        write!(lines, "insert {key} {key}\n")?;
    }
    for _ in 0..1_100_000 {
        lines.push('\n')?;
    }
    lines.push_str("list\n")?;
    Ok(())
}

// Adds the replies to these lines.
fn push_replies(replies: &mut String, keys: (u64, u64)) -> Result<(), Fail> {
    for _ in keys.0..keys.1 {
        replies.push_str("none\n")?;
    }
    for key in keys.0..keys.1 {
        if key > keys.0 {
            replies.push(' ')?;
        }
        write!(replies, "{key}={key}")?;
    }
    replies.push('\n')?;
    Ok(())
}

// Drives lines of more than a mebibyte in one run. The list of 7,000 pairs has 69,999 bytes.
fn drive_many<C: ClearNodes<u64, u64> + Drop>(
    rt: &impl Abort,
    origin: C::Origin,
    alloc: Global,
) -> Result<(), Fail> {
    let mut session: Session<C> = Session::new(origin);
    let (mut lines, mut replies) = (String::new(alloc), String::new(alloc));
    push_lines(&mut lines, (1_000, 8_000))?;
    push_replies(&mut replies, (1_000, 8_000))?;
    let (mut input, mut output) = (lines.as_bytes(), Vec::new(alloc));
    let end = drive(alloc, &mut session, &mut input, &mut output);
    assert_same(rt, end, Ok(()));
    assert_same(rt, output.len(), 7_000 * 5 + 70_000);
    assert_true(rt, output.as_slice() == replies.as_bytes());
    Ok(())
}

#[test]
fn many_lines_are_served(rt: HostRuntime) -> Result<(), Fail> {
    drive_many::<Store>(&rt, rt.alloc(), rt.alloc())
}

// Counts the writes and their bytes, and keeps the length of the longest one.
#[derive(Drop)]
struct Longest {
    writes: usize,
    written: usize,
    longest: usize,
}

impl Write for Longest {
    fn write(&mut self, buf: &[u8]) -> io::Result<usize> {
        self.writes = self.writes.saturating_add(1);
        self.written = self.written.saturating_add(buf.len());
        self.longest = self.longest.max(buf.len());
        Ok(buf.len())
    }

    fn flush(&mut self) -> io::Result<()> {
        Ok(())
    }
}

// Lists 300 pairs, 50 times, in lines that one read gives. Each of these replies has 2,400 bytes, so a write has some of them, or all 300 short
// ones before.
fn drive_lists<C: ClearNodes<u64, u64> + Drop>(
    rt: &impl Abort,
    origin: C::Origin,
    alloc: Global,
) -> Result<(), Fail> {
    let mut session: Session<C> = Session::new(origin);
    let mut lines = String::new(alloc);
    for key in 100..450u64 {
        if key < 400 {
            write!(lines, "insert {key} {key}\n")?;
        } else {
            lines.push_str("list\n")?;
        }
    }
    let mut input = lines.as_bytes();
    let mut output = Longest {
        writes: 0,
        written: 0,
        longest: 0,
    };
    let end = drive(alloc, &mut session, &mut input, &mut output);
    assert_same(rt, end, Ok(()));
    assert_same(rt, output.written, 300 * 5 + 50 * 2400);
    assert_true(rt, output.longest <= 8192 + 2400);
    assert_true(rt, output.writes < 50);
    Ok(())
}

#[test]
fn replies_do_not_wait_for_a_read_once_they_are_long(rt: HostRuntime) -> Result<(), Fail> {
    drive_lists::<Store>(&rt, rt.alloc(), rt.alloc())
}

// Refuses the room for the replies of a run after the first.
fn refuse_room<C: ClearNodes<u64, u64> + Drop>(
    rt: &impl Abort,
    memory: &Refusing<Global>,
    origin: C::Origin,
    alloc: Global,
) -> Result<(), Fail> {
    let mut replies: Vec<Reply, &Refusing<Global>> = Vec::new(memory);
    let mut session: Session<C> = Session::new(origin);
    run(&mut session, &[Command::Insert(1, 10)], &mut replies)?;
    assert_same(rt, replies.as_slice(), [Reply::Nothing].as_slice());

    let commands = [Command::Insert(1, 11); 100];
    let before = content_of(session.map().as_raw(), alloc)?;
    memory.refuse(1);
    assert_true(rt, run(&mut session, &commands, &mut replies).is_err());
    assert_same(rt, memory.refuses(), 0);
    assert_same(rt, replies.as_slice(), [Reply::Nothing].as_slice());
    let after = content_of(session.map().as_raw(), alloc)?;
    assert_same(rt, after.as_str(), before.as_str());

    run(&mut session, &commands, &mut replies)?;
    assert_same(
        rt,
        (replies.len(), replies.get(1).copied()),
        (101, Some(Reply::Value(10))),
    );
    assert_same(rt, replies.last().copied(), Some(Reply::Value(11)));
    Ok(())
}

#[test]
fn refused_room_for_replies_changes_nothing(rt: HostRuntime) -> Result<(), Fail> {
    let memory = Refusing::over(rt.alloc(), 0);
    refuse_room::<Store>(&rt, &memory, rt.alloc(), rt.alloc())
}
