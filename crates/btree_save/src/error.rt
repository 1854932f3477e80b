//! Why a map is not opened, or not saved.
ghost use Rattle.std.specs.Prelude.{◌≡◌};
ghost use Rattle.btree_save.specs.Errors.{error_of};
ghost use Rattle.btree_save.specs.Texts.{image_text, open_text, save_text};
ghost use Rattle.btree_save.specs.declared.error.SaveError.TheVariants as saves;

use btree_image::{BadImage, ReadError};
use btree_item::Fault;
use std::alloc::AllocError;
use std::error::Error;
use std::fmt::{Display, Formatter, Result as Written, Write};
use std::io;

/// Why bytes are not opened.
#[derive(Debug, Drop)]
pub enum OpenError {
    /// The reader failed, or there is no memory for what it gave.
    Read(io::Error),
    /// The store has no room for a node.
    Store,
    /// The bytes are not those of a tree: the first fault, and the place of the byte at which the word or the value begins that has it.
    Image(BadImage, usize),
    /// They are, and it is not well formed, or has more pairs than its limit.
    Tree(Fault),
}

/// Why a map is not saved.
#[derive(Debug, Drop)]
pub enum SaveError {
    /// There is no memory for the bytes.
    Memory,
    /// The writer failed. It may have taken some of the bytes.
    Write(io::Error),
}

impl From<AllocError> for SaveError {
    ghost from_gives = { λ _ e. e ≡ saves.Memory };

    fn from(_e: AllocError) -> SaveError {
        SaveError::Memory
    }
}

// The error of a read of so many bytes.
pub(crate) fn of_read(error: ReadError, count: usize) -> OpenError
    ensures { result ≡ error_of count error }
{
    match error {
        ReadError::Store => OpenError::Store,
        ReadError::Image(stop) => OpenError::Image(stop.fault, count.saturating_sub(stop.left)),
    }
}

// What is wrong with bytes, in words.
fn text_of(fault: BadImage) -> &'static str
    ensures { result.now ≡ image_text fault }
{
    match fault {
        BadImage::Short => "the file ends too early",
        BadImage::Magic => "this is no saved map",
        BadImage::Version => "another version",
        BadImage::Kind => "neither a node nor a vacant place",
        BadImage::Count => "a node has no items, or too many",
        BadImage::Value => "no such key or value",
        BadImage::Vacant => "the last place has no node",
        BadImage::Sum => "the check sum is wrong",
        BadImage::Trailing => "bytes after the end",
    }
}

impl Display for OpenError {
    ghost output = { open_text };

    fn fmt<W: Write>(&self, f: &mut Formatter<W>) -> Written {
        match self {
            OpenError::Read(error) => write!(f, "{error}"),
            OpenError::Store => f.write_str("no room for a node"),
            OpenError::Image(fault, at) => {
                let text = text_of(*fault);
                write!(f, "at byte {at}: {text}")
            }
            OpenError::Tree(fault) => write!(f, "{fault}"),
        }
    }
}

impl Error for OpenError {}

impl Display for SaveError {
    ghost output = { save_text };

    fn fmt<W: Write>(&self, f: &mut Formatter<W>) -> Written {
        match self {
            SaveError::Memory => f.write_str("no memory for the bytes"),
            SaveError::Write(error) => write!(f, "{error}"),
        }
    }
}

impl Error for SaveError {}
