//! Lines of text, and the commands that they express.
ghost use Rattle.std.specs.Prelude.{◌≡◌, [], ◌∷◌, IfSome, IfNone, not, position};
ghost use Rattle.std.specs.Io.BufRead.{strip_last};
ghost use Rattle.btree_session.specs.Line.{is_space, words_of, line_words, AreNumbers, SomeIfAny, IsNumber, MeansLine, Says, name_of, number_list};

use crate::Command;
use crate::question::Question;

/// The meaning of a line.
#[derive(Clone, Copy, Debug, PartialEq, Eq)]
pub(crate) enum Line {
    /// Nothing: it has no words.
    Empty,
    /// A command.
    Command(Command),
    /// A question.
    Question(Question),
    /// Something else.
    Other,
}

// The numbers after a name.
#[derive(Clone, Copy, Debug, PartialEq, Eq)]
enum Numbers {
    Zero,
    One(u64),
    Two(u64, u64),
}

/// Returns the meaning of a line, which is given without its newline.
pub(crate) fn parse(line: &[u8]) -> Line
    ensures { MeansLine (line_words line.now) result }
{
    let Some((name, rest)) = next_word(without_last(line, b'\r')) else {
        return Line::Empty;
    };
    match read_numbers(rest) {
        Some(Numbers::Zero) => named(name),
        Some(Numbers::One(key)) => named_with_key(name, key),
        Some(Numbers::Two(key, value)) => named_with_pair(name, key, value),
        None => Line::Other,
    }
}

/// Returns the line without its last byte, if that is `byte`.
pub(crate) fn without_last(line: &[u8], byte: u8) -> &[u8]
    ensures { result.now ≡ strip_last byte line.now }
{
    match line {
        [text @ .., last] if *last == byte => text,
        _ => line,
    }
}

// Returns the meaning of a name alone.
fn named(name: &[u8]) -> Line
    ensures { Says name.now [] result }
{
    if name == b"clear".as_slice() {
        return Line::Command(Command::Clear);
    }
    if name == b"next".as_slice() {
        return Line::Command(Command::Next);
    }
    if name == b"prev".as_slice() {
        return Line::Command(Command::Prev);
    }
    if name == b"take".as_slice() {
        return Line::Command(Command::Take);
    }
    match question_named(name) {
        Some(asked) => Line::Question(asked),
        None => Line::Other,
    }
}

fn named_with_key(name: &[u8], key: u64) -> Line
    ensures { Says name.now (key ∷ []) result }
{
    if name == b"get".as_slice() {
        return Line::Command(Command::Get(key));
    }
    if name == b"remove".as_slice() {
        return Line::Command(Command::Remove(key));
    }
    if name == b"seek".as_slice() {
        return Line::Command(Command::Seek(key));
    }
    Line::Other
}

fn named_with_pair(name: &[u8], key: u64, value: u64) -> Line
    ensures { Says name.now (key ∷ value ∷ []) result }
{
    if name == b"insert".as_slice() {
        return Line::Command(Command::Insert(key, value));
    }
    if name == b"put".as_slice() {
        return Line::Command(Command::Put(key, value));
    }
    Line::Other
}

fn question_named(name: &[u8]) -> Option<Question>
    ensures { SomeIfAny (λ asked. name.now ≡ name_of asked) result }
{
    if name == b"list".as_slice() {
        return Some(Question::List);
    }
    if name == b"len".as_slice() {
        return Some(Question::Len);
    }
    if name == b"nodes".as_slice() {
        return Some(Question::Nodes);
    }
    if name == b"shape".as_slice() {
        return Some(Question::Shape);
    }
    None
}

// Returns the numbers, if the text consists of at most two numbers.
fn read_numbers(text: &[u8]) -> Option<Numbers>
    ensures { SomeIfAny (λ ns. AreNumbers (number_list ns) (words_of text.now)) result }
{
    let Some((word, rest)) = next_word(text) else {
        return Some(Numbers::Zero);
    };
    let first = number(word)?;
    let Some((word, rest)) = next_word(rest) else {
        return Some(Numbers::One(first));
    };
    let second = number(word)?;
    if next_word(rest).is_some() {
        return None;
    }
    Some(Numbers::Two(first, second))
}

// Returns the first word and the text after it, if there is a word.
fn next_word(text: &[u8]) -> Option<(&[u8], &[u8])>
    ensures none { IfNone result (words_of text.now ≡ []) }
    ensures some { IfSome result
        (λ split. words_of text.now ≡ split.0.now ∷ words_of split.1.now) }
{
    let spaces = first_byte_of_word(text).unwrap_or(text.len());
    let (_, start) = text.split_at(spaces);
    if start.is_empty() {
        return None;
    }
    let len = first_space(start).unwrap_or(start.len());
    Some(start.split_at(len))
}

fn first_byte_of_word(text: &[u8]) -> Option<usize>
    ensures { result ≡ position (λ byte. not (is_space byte)) text.now }
{
    text.iter().position(|byte| *byte != b' ')
}

fn first_space(text: &[u8]) -> Option<usize>
    ensures { result ≡ position is_space text.now }
{
    text.iter().position(|byte| *byte == b' ')
}

/// Parses a word of decimal digits as a number of 64 bits.
pub(crate) fn number(word: &[u8]) -> Option<u64>
    ensures { SomeIfAny (λ n. IsNumber n word.now) result }
{
    if word.is_empty() {
        return None;
    }
    let mut number = 0u64;
    for byte in word {
        if !byte.is_ascii_digit() {
            return None;
        }
        let digit = u64::from(*byte - b'0');
        number = number.checked_mul(10)?.checked_add(digit)?;
    }
    Some(number)
}
