//! The text of a reply.
use std::alloc::{AllocError, Global};
use std::fmt::Debug;

/// The text of a reply: words with a space between them, on one line or more.
///
/// A word for which memory is refused is left out, and the reply notes that it has run out.
#[derive(Drop)]
pub struct Reply {
    text: String,
    // Whether a line has begun, and no word stands on it.
    is_at_start: bool,
    // Whether a word of the call was not understood.
    is_unknown: bool,
    // Whether memory for the call or for its reply was refused.
    has_run_out: bool,
}

impl Reply {
    /// Returns a reply without words.
    pub fn new(alloc: Global) -> Reply {
        Reply {
            text: String::new(alloc),
            is_at_start: true,
            is_unknown: false,
            has_run_out: false,
        }
    }

    /// Returns the text.
    pub fn as_str(&self) -> &str {
        self.text.as_str()
    }

    /// Takes all words away.
    pub fn clear(&mut self) {
        self.text.clear();
        self.is_at_start = true;
    }

    /// Adds a word, after a space unless it is the first of its line.
    pub fn word(&mut self, word: &str) {
        if !self.is_at_start {
            self.glue(" ");
        }
        self.glue(word);
    }

    /// Says that a word of the call was not understood, so that the line is no call.
    pub fn unknown(&mut self) {
        self.is_unknown = true;
    }

    /// Returns whether a word of the call was not understood.
    pub(crate) fn is_unknown(&self) -> bool {
        self.is_unknown
    }

    /// Says that memory for the call was refused.
    pub fn run_out(&mut self) {
        self.has_run_out = true;
    }

    /// Returns whether memory for the call or for its reply was refused.
    pub(crate) fn has_run_out(&self) -> bool {
        self.has_run_out
    }

    /// Adds a text with no space before it.
    pub fn glue(&mut self, text: &str) {
        self.is_at_start = false;
        if self.text.push_str(text).is_err() {
            self.has_run_out = true;
        }
    }

    /// Says that memory was refused, if another reply says so. Returns whether it does.
    pub fn note(&mut self, other: &Reply) -> bool {
        self.has_run_out = self.has_run_out || other.has_run_out;
        other.has_run_out
    }

    /// Returns what was made for the call, or `None` after it said that memory was refused.
    pub fn granted<T: Drop>(&mut self, made: Result<T, AllocError>) -> Option<T> {
        match made {
            Ok(made) => Some(made),
            Err(AllocError) => {
                self.run_out();
                None
            }
        }
    }

    /// Begins another line, which has a bar in front.
    pub fn line(&mut self) {
        self.glue("\n| ");
        self.is_at_start = true;
    }

    /// Adds a number with no space before it.
    pub fn glue_number(&mut self, number: u64) {
        self.is_at_start = false;
        if write!(self.text, "{number}").is_err() {
            self.has_run_out = true;
        }
    }

    /// Adds a number.
    pub fn number(&mut self, number: u64) {
        self.word("");
        self.glue_number(number);
    }

    /// Adds the debug text of a value.
    pub fn shown<T: Debug>(&mut self, value: &T) {
        self.word("");
        if write!(self.text, "{value:?}").is_err() {
            self.has_run_out = true;
        }
    }
}
