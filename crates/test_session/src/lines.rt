//! The lines of a book, from readers and to writers that fail.
use crate::streams::{Piece, Pieces, Slow};
use book_text::{Desk, Desks, Ending, Reply, serve};
use std::alloc::Global;
use std::cell::Cell;
use std::io::ErrorKind;
use std::process::Abort;
use std::test::Fail;
use test_support::Refusing;

// Replies with the words after `say`, and with two lines to `list`. It asks for memory to `grow`, to `spoil` and to `hide`; if that is refused,
// `spoil` changes the desk, and `hide` does not say so.
#[derive(Drop)]
struct Echo<'m> {
    is_spent: bool,
    memory: &'m Refusing<Global>,
}

fn has_room(memory: &Refusing<Global>) -> bool {
    let mut room: Vec<u64, &Refusing<Global>> = Vec::new(memory);
    room.reserve(1).is_ok()
}

impl Echo<'_> {
    // Returns whether the words are a call that asks for memory.
    fn grow(&mut self, words: &str, reply: &mut Reply) -> bool {
        if words != "grow" && words != "spoil" && words != "hide" {
            return false;
        }
        let is_grown = has_room(self.memory);
        if !is_grown && words == "spoil" {
            self.is_spent = true;
        }
        reply.word(if is_grown || words == "hide" {
            "grown"
        } else {
            "refused"
        });
        true
    }
}

impl Desk for Echo<'_> {
    fn call(&mut self, words: &str, reply: &mut Reply) -> bool {
        if self.grow(words, reply) {
            return true;
        }
        match words.strip_prefix("say ") {
            Some(rest) => reply.word(rest),
            None if words == "fail" => {
                self.is_spent = true;
                reply.run_out();
            }
            None if words == "list" => {
                reply.word("two");
                reply.line();
                reply.word("lines");
            }
            None => return false,
        }
        true
    }

    fn content(&self, reply: &mut Reply) {
        reply.truth(self.is_spent);
    }
}

fn serve_from(
    alloc: Global,
    pieces: &[Piece<'_>],
    flushed: &Cell<usize>,
    output: &mut Slow<'_>,
) -> Result<(), Ending> {
    let memory = Refusing::over(alloc, 0);
    let mut desks = Desks {
        plain: Echo {
            is_spent: false,
            memory: &memory,
        },
        refusing: Echo {
            is_spent: false,
            memory: &memory,
        },
        is_refusing: false,
    };
    let mut input = Pieces {
        pieces,
        next: 0,
        flushed,
        seen: Vec::new(alloc),
    };
    serve(alloc, &memory, &mut desks, &mut input, output)
}

// Serves pieces of input, and checks what is written, and how that ends.
fn check_pieces(
    rt: &impl Abort,
    alloc: Global,
    case: &[u8],
    pieces: &[Piece<'_>],
    (most, flushes): (usize, bool),
    written: &[u8],
    ends: Result<(), Ending>,
) {
    let flushed = Cell::new(0);
    let mut output = Slow {
        written: Vec::new(alloc),
        flushed: &flushed,
        most,
        flushes,
    };
    let end = serve_from(alloc, pieces, &flushed, &mut output);
    assert_eq!(rt; output.written.as_slice(), written, "{case:?}");
    assert!(rt; end == ends, "{case:?}");
}

const LINES: [(&[u8], &[u8], Result<(), Ending>); 14] = [
    (b"", b"", Ok(())),
    (
        b"# A heading\n\nsay 1 -> 1\nsay 2\n",
        b"# A heading\n\nsay 1 -> 1\n2\n",
        Ok(()),
    ),
    (b"say 1 -> 1", b"say 1 -> 1\n", Ok(())),
    (
        b"say 1 -> 2\nsay 3 -> 3\n",
        b"say 1 -> 1\nsay 3 -> 3\n",
        Err(Ending::OtherReply(1)),
    ),
    (
        b"\njump\nsay 1\njump -> 1\n",
        b"\nnot a call (line 2)\n1\njump -> not a call (line 4)\n",
        Err(Ending::NotACall(2)),
    ),
    (
        b"say \xff\nsay 1\n",
        b"not a call (line 1)\n1\n",
        Err(Ending::NotACall(1)),
    ),
    (
        b"list -> two\n| lines\nlist\n",
        b"list -> two\n| lines\ntwo\n| lines\n",
        Ok(()),
    ),
    (
        b"list -> two lines\n",
        b"list -> two\n| lines\n",
        Err(Ending::OtherReply(1)),
    ),
    (
        b"refuse 1 -> ok\nover refusing -> ok\nsay 1\n",
        b"refuse 1 -> ok\nover refusing -> ok\n1\n",
        Ok(()),
    ),
    (
        b"insist say 1 -> kept 0 1\ninsist jump\nrefuse now\n",
        b"insist say 1 -> kept 0 1\nnot a call (line 2)\nnot a call (line 3)\n",
        Err(Ending::NotACall(2)),
    ),
    (
        b"insist grow -> kept 1 grown\ninsist spoil -> changed refused\ninsist hide -> changed grown\n",
        b"insist grow -> kept 1 grown\ninsist spoil -> changed refused\ninsist hide -> changed grown\n",
        Ok(()),
    ),
    (
        b"insist spoil -> kept 1 grown\n",
        b"insist spoil -> changed refused\n",
        Err(Ending::OtherReply(1)),
    ),
    (b"say 1\nfail\nsay 2\n", b"1\n", Err(Ending::Memory)),
    (b"say 1 -> \n", b"say 1 -> 1\n", Err(Ending::OtherReply(1))),
];

#[test]
fn lines_have_replies(rt: HostRuntime) {
    for (bytes, written, ends) in LINES {
        let pieces = [Piece::Bytes(bytes)];
        check_pieces(
            &rt,
            rt.alloc(),
            bytes,
            &pieces,
            (usize::MAX, true),
            written,
            ends,
        );
    }
}

#[test]
fn a_failed_read_is_the_end_of_input_or_of_memory(rt: HostRuntime) {
    for (kind, ends) in [
        (ErrorKind::Other, Err(Ending::Input)),
        (ErrorKind::OutOfMemory, Err(Ending::Memory)),
    ] {
        let pieces = [Piece::Bytes(b"say 1\nsay 2"), Piece::Fails(kind)];
        check_pieces(
            &rt,
            rt.alloc(),
            b"read",
            &pieces,
            (usize::MAX, true),
            b"1\n",
            ends,
        );
    }
}

#[test]
fn a_writer_that_is_closed_ends_it(rt: HostRuntime) {
    for (limits, written) in [
        ((0, true), b"".as_slice()),
        ((1, true), b"1\n"),
        ((usize::MAX, false), b"1\n"),
    ] {
        let pieces = [Piece::Bytes(b"say 1\nsay 2\n")];
        check_pieces(
            &rt,
            rt.alloc(),
            b"write",
            &pieces,
            limits,
            written,
            Err(Ending::Output),
        );
    }
}

#[test]
fn each_ending_has_a_line_and_a_status(rt: HostRuntime) -> Result<(), Fail> {
    for (ending, status, line) in [
        (
            Ending::WrongArguments,
            1,
            "usage: a book on standard input, and no arguments",
        ),
        (Ending::NotACall(3), 1, "line 3: not a call"),
        (Ending::OtherReply(4), 1, "line 4: another reply"),
        (Ending::Memory, 2, "out of memory"),
        (Ending::Input, 3, "input failed"),
        (Ending::Output, 3, "output failed"),
    ] {
        let text = format!(in rt.alloc(); "{ending}")?;
        assert_eq!(rt; text.as_str(), line);
        assert_eq!(rt; ending.status(), status);
    }
    Ok(())
}
