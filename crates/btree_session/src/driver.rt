//! Reads commands from lines of text, and writes replies as lines of text.
ghost use Rattle.std.specs.Prelude.{◌≡◌, ◌⊎◌, [], position, IfSome, IfNone, IfOk, IfErr, OnOk, OnErr};
ghost use Rattle.std.specs.Io.KnownBytes.{IsAtEnd};
ghost use Rattle.btree_session.specs.Line.{line_words, MeansLine};
ghost use Rattle.btree_session.specs.Answer.{Answers, LacksRoomToAnswer};
ghost use Rattle.btree_session.specs.Script.{is_newline, input_of, Drives, DrivesBuffered, HasNoLine, IfInput, MayStopAnywhere, RunsCommand, Performs, StopsAt, TakesLine, UnlessOutput, WritesOut};
ghost use Rattle.btree_session.specs.Text.{LacksCapacityFor};

use crate::line::{Line, parse, without_last};
use crate::question::{Question, push_answer_line};
use crate::text::{LONGEST_LINE, push_line};
use crate::{Command, Session};
use btree_node::{ClearNodes, NodesMut};
use std::alloc::{AllocError, Global};
use std::io::{BufRead, BufReader, ErrorKind, Read, Write};

// The replies are written out once they have more bytes than this.
const MOST_TEXT: usize = 8192;

/// Why driving stopped before the end of the input.
#[derive(Clone, Copy, Debug, PartialEq, Eq)]
pub enum Stop {
    /// The line with this number, counted from 1, is neither a command nor a question.
    NotACommand(u64),
    /// Memory for a buffer, for a line or for a text to be written was refused.
    Memory,
    /// The reader failed.
    Input,
    /// The writer failed.
    Output,
}

/// Reads lines of text, runs the commands and answers the questions on them, and writes each reply on a line of its own.
///
/// The replies so far are written and flushed at the end, before a stop, before each read from the reader, which comes if its buffer has
/// no complete line, and once they have more than 8 KiB. Commands that were run keep their effect, however it ends.
///
/// Except for nodes, it allocates memory for three buffers only: the reader's, one for a line that no single read gave whole, and one for
/// the replies that are not written yet, at most 8 KiB and one reply. A reader's error of the kind `OutOfMemory` counts as refused memory.
/// An input of `u64::MAX - 1` lines or more ends like one that fails.
pub fn drive<C: ClearNodes<u64, u64>, R: Read, W: Write>(
    alloc: Global,
    session: &mut Session<C>,
    input: &mut R,
    output: &mut W,
) -> Result<(), Stop>
    ensures { Drives C.MayRefuse R.remaining W.contents
        session.old input.old output.old result output.new session.new }
{
    let Ok(mut reader) = BufReader::new(alloc, input) else {
        return Err(Stop::Memory);
    };
    let mut text = Vec::new(alloc);
    let result = serve(alloc, session, &mut reader, output, &mut text);
    write_out(&mut text, output)?;
    result
}

// Serves lines until the input ends. What is left in `text` is still to be written.
fn serve<C: ClearNodes<u64, u64>, R: Read, W: Write>(
    alloc: Global,
    session: &mut Session<C>,
    reader: &mut BufReader<R>,
    output: &mut W,
    text: &mut Vec<u8>,
) -> Result<(), Stop>
    ensures { DrivesBuffered C.MayRefuse R.remaining W.contents
        session.old reader.old output.old text.old result output.new text.new session.new }
{
    let mut line = Vec::new(alloc);
    for number in 1..u64::MAX {
        let Some(said) = next_line(reader, &mut line, text, output)? else {
            return Ok(());
        };
        serve_line(session, said, number, text)?;
    }
    Err(Stop::Input)
}

// Reads the next line, if there is one, and returns its meaning. Before it reads more input, and if the text is long, it writes the text
// out.
fn next_line<R: Read, W: Write>(
    reader: &mut BufReader<R>,
    line: &mut Vec<u8>,
    text: &mut Vec<u8>,
    output: &mut W,
) -> Result<Option<Line>, Stop>
    ensures line { IfOk result (λ next. IfSome next
        (TakesLine R.remaining reader.old reader.new)) }
    ensures end { IfOk result (λ next. IfNone next
        (IsAtEnd (input_of R.remaining reader.old))) }
    ensures text { UnlessOutput result
        (WritesOut W.contents output.old text.old output.new text.new) }
    ensures stop { IfErr result MayStopAnywhere }
    ensures asked { IfInput result (HasNoLine reader.old) }
{
    if let Some(said) = buffered_line(reader) {
        write_out_long(text, output)?;
        return Ok(Some(said));
    }
    write_out(text, output)?;
    read_line(reader, line)
}

// Returns the meaning of the next line, if the reader's buffer has the whole line.
fn buffered_line<R: Read>(reader: &mut BufReader<R>) -> Option<Line>
    ensures line { IfSome result (TakesLine R.remaining reader.old reader.new) }
    ensures none { IfNone result (reader.new ≡ reader.old) }
    ensures no_line { IfNone result (HasNoLine reader.old) }
{
    let len = newline_place(reader.buffer())?;
    let (line, _) = reader.buffer().split_at(len);
    let said = parse(line);
    reader.consume(len + 1);
    Some(said)
}

fn newline_place(bytes: &[u8]) -> Option<usize>
    ensures { result ≡ position is_newline bytes.now }
{
    bytes.iter().position(|byte| *byte == b'\n')
}

// Reads the next line, if there is one, and returns its meaning. The vector holds the line.
fn read_line<R: Read>(reader: &mut BufReader<R>, line: &mut Vec<u8>) -> Result<Option<Line>, Stop>
    ensures line { IfOk result (λ next. IfSome next
        (TakesLine R.remaining reader.old reader.new)) }
    ensures end { IfOk result (λ next. IfNone next
        (IsAtEnd (input_of R.remaining reader.old))) }
    ensures stop { IfErr result (λ stop. (stop ≡ Stop.Memory) ⊎ (stop ≡ Stop.Input)) }
{
    line.clear();
    match reader.read_until(b'\n', line) {
        Ok(0) => Ok(None),
        Ok(_) => Ok(Some(parse(without_last(line.as_slice(), b'\n')))),
        Err(error) if error.kind() == ErrorKind::OutOfMemory => Err(Stop::Memory),
        Err(_) => Err(Stop::Input),
    }
}

// Runs what a line means and appends the reply to the text. An `Err` changes nothing.
fn serve_line<C: ClearNodes<u64, u64>>(
    session: &mut Session<C>,
    said: Line,
    number: u64,
    text: &mut Vec<u8>,
) -> Result<(), Stop>
    ensures served { OnOk result
        (Performs C.MayRefuse session.old said session.new text.old text.new) }
    ensures session_kept { OnErr result (session.new ≡ session.old) }
    ensures text_kept { OnErr result (text.new.items ≡ text.old.items) }
    ensures stop { IfErr result (StopsAt session.old said text.old number) }
{
    match said {
        Line::Empty => Ok(()),
        Line::Command(command) => match obey(session, command, text) {
            Ok(()) => Ok(()),
            Err(_) => Err(Stop::Memory),
        },
        Line::Question(question) => match answer(session, question, text) {
            Ok(()) => Ok(()),
            Err(_) => Err(Stop::Memory),
        },
        Line::Other => Err(Stop::NotACommand(number)),
    }
}

// Runs a command and appends the reply to the text. Room for the reply is made first; if that is refused, the command is not run.
fn obey<C: ClearNodes<u64, u64>>(
    session: &mut Session<C>,
    command: Command,
    text: &mut Vec<u8>,
) -> Result<(), AllocError>
    ensures done { OnOk result
        (RunsCommand C.MayRefuse session.old command session.new text.old text.new) }
    ensures session_kept { OnErr result (session.new ≡ session.old) }
    ensures text_kept { OnErr result (text.new.items ≡ text.old.items) }
    ensures full { OnErr result (LacksCapacityFor text.old LONGEST_LINE) }
{
    text.reserve(LONGEST_LINE)?;
    let reply = session.execute(command);
    push_line(text, reply);
    Ok(())
}

// Appends the answer to a question to the text. An `Err` changes nothing.
fn answer<C: NodesMut<u64, u64>>(
    session: &Session<C>,
    question: Question,
    text: &mut Vec<u8>,
) -> Result<(), AllocError>
    ensures answered { OnOk result (Answers session.now.map question text.old text.new) }
    ensures text_kept { OnErr result (text.new.items ≡ text.old.items) }
    ensures full { OnErr result (LacksRoomToAnswer session.now.map question text.old) }
{
    let len = text.len();
    match push_answer_line(session.map(), question, text) {
        Ok(()) => Ok(()),
        Err(error) => {
            text.truncate(len);
            Err(error)
        }
    }
}

// Writes the text out if it has more bytes than `MOST_TEXT`.
fn write_out_long<W: Write>(text: &mut Vec<u8>, output: &mut W) -> Result<(), Stop>
    ensures ok { OnOk result (WritesOut W.contents output.old text.old output.new text.new) }
    ensures err { IfErr result (λ stop. stop ≡ Stop.Output) }
{
    if text.len() > MOST_TEXT {
        return write_out(text, output);
    }
    Ok(())
}

// Writes the text out and empties it, whether the write succeeds or not.
fn write_out<W: Write>(text: &mut Vec<u8>, output: &mut W) -> Result<(), Stop>
    ensures empty { text.new.items ≡ [] }
    ensures ok { OnOk result (WritesOut W.contents output.old text.old output.new text.new) }
    ensures err { IfErr result (λ stop. stop ≡ Stop.Output) }
{
    if text.is_empty() {
        return Ok(());
    }
    let is_written = output.write_all(text.as_slice()).is_ok() && output.flush().is_ok();
    text.clear();
    if is_written {
        Ok(())
    } else {
        Err(Stop::Output)
    }
}
