//! Refusals of an insertion and of an update, and the errors that `?` makes of them.
ghost use Rattle.std.specs.Prelude.{◌≡◌, Some};
ghost use Rattle.std.specs.IoError.{error_kind};
ghost use Rattle.std.specs.declared.io.ErrorKind.TheVariants.{OutOfMemory};
ghost use Rattle.btree_item.specs.Refusals.{cause_text};

use std::alloc::AllocError;
use std::error::Error;
use std::fmt::{Debug, Display, Formatter, Result, Write};
use std::io;

/// Why an insertion was refused.
#[derive(Clone, Copy, Debug, PartialEq, Eq)]
pub enum Cause {
    /// The store had no room for a node.
    Store,
    /// The length has reached its limit.
    Count,
}

/// A refused insertion: the cause, and the key and the value, which the caller gets back.
#[derive(Debug, Drop)]
pub struct Refused<K, V> {
    pub cause: Cause,
    pub key: K,
    pub value: V,
}

/// A refused update: the cause, and the key and the action, which the caller gets back. The action was not called.
#[derive(Drop)]
pub struct UpdateRefused<K, F> {
    pub cause: Cause,
    pub key: K,
    pub action: F,
}

/// The cause and the key, without the action.
impl<K: Debug, F> Debug for UpdateRefused<K, F> {
    fn fmt<W: Write>(&self, f: &mut Formatter<W>) -> Result {
        f.debug_struct("UpdateRefused")
            .field("cause", &self.cause)
            .field("key", &self.key)
            .finish_non_exhaustive()
    }
}

impl Display for Cause {
    ghost output = { λ cause. Some (cause_text cause) };

    fn fmt<W: Write>(&self, f: &mut Formatter<W>) -> Result {
        match self {
            Cause::Store => f.write_str("no node could be allocated"),
            Cause::Count => f.write_str("the length has reached its limit"),
        }
    }
}

impl Error for Cause {}

/// The cause, without the key and the value.
impl<K, V> Display for Refused<K, V> {
    ghost output = { λ refused. Some (cause_text refused.cause) };

    fn fmt<W: Write>(&self, f: &mut Formatter<W>) -> Result {
        write!(f, "{}", self.cause)
    }
}

impl<K: Debug + Drop, V: Debug + Drop> Error for Refused<K, V> {}

/// The cause, without the key and the action.
impl<K, F> Display for UpdateRefused<K, F> {
    ghost output = { λ refused. Some (cause_text refused.cause) };

    fn fmt<W: Write>(&self, f: &mut Formatter<W>) -> Result {
        write!(f, "{}", self.cause)
    }
}

impl<K: Debug + Drop, F: Drop> Error for UpdateRefused<K, F> {}

fn out_of_memory() -> io::Error
    ensures { error_kind result ≡ OutOfMemory }
{
    io::Error::from(io::ErrorKind::OutOfMemory)
}

/// The cause of a refusal as an error of memory, for `?`. Both causes become the same error.
impl From<Cause> for AllocError {
    fn from(_cause: Cause) -> AllocError {
        AllocError
    }
}

/// The cause of a refusal as an error of input and output, of the kind `OutOfMemory`. Both causes become the same error.
impl From<Cause> for io::Error {
    ghost from_gives = { λ _ error. error_kind error ≡ OutOfMemory };

    fn from(_cause: Cause) -> io::Error {
        out_of_memory()
    }
}

/// A refused insertion as an error of memory, for `?`. The key and the value are dropped.
impl<K: Drop, V: Drop> From<Refused<K, V>> for AllocError {
    fn from(_refused: Refused<K, V>) -> AllocError {
        AllocError
    }
}

/// A refused insertion as an error of input and output, of the kind `OutOfMemory`. The key and the value are dropped.
impl<K: Drop, V: Drop> From<Refused<K, V>> for io::Error {
    ghost from_gives = { λ _ error. error_kind error ≡ OutOfMemory };

    fn from(_refused: Refused<K, V>) -> io::Error {
        out_of_memory()
    }
}

/// A refused update as an error of memory, for `?`. The key and the action are dropped.
impl<K: Drop, F: Drop> From<UpdateRefused<K, F>> for AllocError {
    fn from(_refused: UpdateRefused<K, F>) -> AllocError {
        AllocError
    }
}

/// A refused update as an error of input and output, of the kind `OutOfMemory`. The key and the action are dropped.
impl<K: Drop, F: Drop> From<UpdateRefused<K, F>> for io::Error {
    ghost from_gives = { λ _ error. error_kind error ≡ OutOfMemory };

    fn from(_refused: UpdateRefused<K, F>) -> io::Error {
        out_of_memory()
    }
}
