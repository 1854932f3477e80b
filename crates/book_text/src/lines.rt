//! The lines of a book, one after another.
use crate::refusals::insist;
use crate::repeats::each;
use crate::words::{number, word};
use crate::{Desk, Reply};
use std::alloc::Global;
use std::io::{BufRead, BufReader, ErrorKind, Read, Write};
use std::{fmt, str};
use test_support::Refusing;

/// How serving ended where not all lines have the replies that the book gives.
#[derive(Clone, Copy, Debug, PartialEq, Eq)]
pub enum Ending {
    /// There were arguments, which this program does not have.
    WrongArguments,
    /// The line with this number, counted from 1, is no call. The lines after it were served.
    NotACall(u64),
    /// The line with this number has another reply than the book gives. The lines after it were served.
    OtherReply(u64),
    /// Memory for a line or for a reply was refused.
    Memory,
    /// The reader failed.
    Input,
    /// The writer failed.
    Output,
}

impl Ending {
    /// Returns the exit status: 1 for arguments and for what a line says, 2 for memory, 3 for input and output.
    pub fn status(self) -> u8 {
        match self {
            Ending::WrongArguments | Ending::NotACall(_) | Ending::OtherReply(_) => 1,
            Ending::Memory => 2,
            Ending::Input | Ending::Output => 3,
        }
    }
}

impl fmt::Display for Ending {
    fn fmt<W: fmt::Write>(&self, f: &mut fmt::Formatter<W>) -> fmt::Result {
        match self {
            Ending::WrongArguments => write!(
                f,
                "usage: a book on standard input, and no arguments"
            ),
            Ending::NotACall(number) => write!(f, "line {number}: not a call"),
            Ending::OtherReply(number) => write!(f, "line {number}: another reply"),
            Ending::Memory => write!(f, "out of memory"),
            Ending::Input => write!(f, "input failed"),
            Ending::Output => write!(f, "output failed"),
        }
    }
}

// Reads the next line without its end into a vector. Returns whether there is one.
fn read_line<R: Read>(reader: &mut BufReader<R>, line: &mut Vec<u8>) -> Result<bool, Ending> {
    line.clear();
    match reader.read_until(b'\n', line) {
        Ok(0) => Ok(false),
        Ok(_) => {
            if line.as_slice().ends_with(b"\n") {
                let _ = line.pop();
            }
            Ok(true)
        }
        Err(error) if error.kind() == ErrorKind::OutOfMemory => Err(Ending::Memory),
        Err(_) => Err(Ending::Input),
    }
}

fn write_out<W: Write>(output: &mut W, text: &str) -> Result<(), Ending> {
    if output.write_all(text.as_bytes()).is_ok() && output.flush().is_ok() {
        Ok(())
    } else {
        Err(Ending::Output)
    }
}

/// Two desks, the second over memory that is refused on demand, and which of the two the lines are calls of.
#[derive(Drop)]
pub struct Desks<P, Q> {
    pub plain: P,
    pub refusing: Q,
    pub is_refusing: bool,
}

/// Does a call of one of the desks, or one that is about them.
pub(crate) fn call<P: Desk, Q: Desk>(
    alloc: Global,
    memory: &Refusing<Global>,
    desks: &mut Desks<P, Q>,
    words: &str,
    reply: &mut Reply,
) -> bool {
    let (first, rest) = word(words);
    match (first, rest) {
        ("over", "slab") => desks.is_refusing = false,
        ("over", "refusing") => desks.is_refusing = true,
        ("refuse", _) => match number(rest) {
            Some(at) => memory.refuse(at),
            None => return false,
        },
        ("insist", _) => return insist(alloc, memory, &mut desks.refusing, rest, reply),
        _ if desks.is_refusing => return desks.refusing.call(words, reply),
        _ => return desks.plain.call(words, reply),
    }
    reply.word("ok");
    true
}

fn first_line(text: &str) -> &str {
    match text.split_once('\n') {
        Some((first, _)) => first,
        None => text,
    }
}

// Serves a call, and adds the line to the text that is to be written. Returns how the reply differs from what the book gives.
fn serve_call<P: Desk, Q: Desk>(
    alloc: Global,
    memory: &Refusing<Global>,
    desks: &mut Desks<P, Q>,
    line: &str,
    at: u64,
    text: &mut Reply,
) -> Option<Ending> {
    let (words, said) = match line.split_once(" -> ") {
        Some((words, said)) => (words, Some(said)),
        None => (line, None),
    };
    if said.is_some() {
        text.glue(words);
        text.glue(" -> ");
    }
    let mut reply = Reply::new(alloc);
    let is_call = match words.strip_prefix("each ") {
        Some(rest) => each(alloc, memory, desks, rest, &mut reply),
        None => call(alloc, memory, desks, words, &mut reply),
    };
    if text.note(&reply) {
        return None;
    }
    if !is_call || reply.is_unknown() {
        return not_a_call(at, text);
    }
    text.glue(reply.as_str());
    text.glue("\n");
    match said {
        Some(said) if said != first_line(reply.as_str()) => Some(Ending::OtherReply(at)),
        _ => None,
    }
}

fn not_a_call(at: u64, text: &mut Reply) -> Option<Ending> {
    text.glue("not a call (line ");
    text.glue_number(at);
    text.glue(")\n");
    Some(Ending::NotACall(at))
}

// Serves a line, and adds what is to be written to the text.
fn serve_line<P: Desk, Q: Desk>(
    alloc: Global,
    memory: &Refusing<Global>,
    desks: &mut Desks<P, Q>,
    line: &[u8],
    at: u64,
    text: &mut Reply,
) -> Option<Ending> {
    let Ok(line) = str::from_utf8(line) else {
        return not_a_call(at, text);
    };
    if line.starts_with('|') {
        return None;
    }
    if line == "" || line.starts_with('#') {
        text.glue(line);
        text.glue("\n");
        return None;
    }
    serve_call(alloc, memory, desks, line, at, text)
}

/// Serves the lines of a book to the end of the input, and writes each with its reply before the next is read.
///
/// A line is a call, or a call, an arrow and the reply that the book gives; then it is repeated with the reply that it has. Empty lines and
/// those that begin with `#` are repeated. Those that begin with a bar belong to the reply before, which is written anew. Lines go to the
/// first desk, after `over refusing` to the second, whose memory `refuse` and `insist` refuse.
///
/// It fails with the first line that is no call or has another reply, once all are served; or at once, if memory for a line or a reply is
/// refused, or the reader or the writer fails. An input of `u64::MAX` lines or more ends like one that fails.
pub fn serve<P: Desk, Q: Desk, R: Read, W: Write>(
    alloc: Global,
    memory: &Refusing<Global>,
    desks: &mut Desks<P, Q>,
    input: &mut R,
    output: &mut W,
) -> Result<(), Ending> {
    let Ok(mut reader) = BufReader::new(alloc, input) else {
        return Err(Ending::Memory);
    };
    let (mut line, mut text) = (Vec::new(alloc), Reply::new(alloc));
    let mut first: Option<Ending> = None;
    for at in 1..u64::MAX {
        if !read_line(&mut reader, &mut line)? {
            return match first {
                Some(ending) => Err(ending),
                None => Ok(()),
            };
        }
        text.clear();
        let found = serve_line(alloc, memory, desks, line.as_slice(), at, &mut text);
        if text.has_run_out() {
            return Err(Ending::Memory);
        }
        first = first.or(found);
        write_out(output, text.as_str())?;
    }
    Err(Ending::Input)
}
