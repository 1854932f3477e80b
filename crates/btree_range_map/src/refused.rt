//! Refusals of calls that change a map of ranges, and the errors that `?` makes of them.
ghost use Rattle.std.specs.Prelude.{◌≡◌, Some};
ghost use Rattle.std.specs.IoError.{error_kind};
ghost use Rattle.std.specs.declared.io.ErrorKind.TheVariants.{OutOfMemory};
ghost use Rattle.btree_range_map.specs.Refusals.{by_node, refusal_text};

use btree_item::{Cause, Refused};
use std::alloc::AllocError;
use std::error::Error;
use std::fmt::{Debug, Display, Formatter, Result, Write};
use std::io;

/// Why a call was refused.
#[derive(Clone, Copy, Debug, PartialEq, Eq)]
pub enum RangeCause {
    /// The store had no room for a node.
    Store,
    /// There would be more ranges than there may be.
    Count,
    /// The value of a range that would be cut in two could not be cloned.
    Clone,
}

/// A refused call: the cause, and the arguments, which the caller gets back. `key` is the start of its numbers. `value` is their end, or, of an
/// insertion, a [`Span`](crate::Span) with the end and the value.
#[derive(Debug, Drop)]
pub struct RangeRefused<T> {
    pub cause: RangeCause,
    pub key: u64,
    pub value: T,
}

impl Display for RangeCause {
    ghost output = { λ cause. Some (refusal_text cause) };

    fn fmt<W: Write>(&self, f: &mut Formatter<W>) -> Result {
        match self {
            RangeCause::Store => f.write_str("no node could be allocated"),
            RangeCause::Count => f.write_str("the number of ranges has reached its limit"),
            RangeCause::Clone => f.write_str("a value could not be cloned"),
        }
    }
}

impl Error for RangeCause {}

/// The cause, without the arguments.
impl<T> Display for RangeRefused<T> {
    ghost output = { λ refused. Some (refusal_text refused.cause) };

    fn fmt<W: Write>(&self, f: &mut Formatter<W>) -> Result {
        write!(f, "{}", self.cause)
    }
}

impl<T: Debug + Drop> Error for RangeRefused<T> {}

fn out_of_memory() -> io::Error
    ensures { error_kind result ≡ OutOfMemory }
{
    io::Error::from(io::ErrorKind::OutOfMemory)
}

/// The cause of a refusal as an error of memory, for `?`. All causes become the same error.
impl From<RangeCause> for AllocError {
    fn from(_cause: RangeCause) -> AllocError {
        AllocError
    }
}

/// The cause of a refusal as an error of input and output, of the kind `OutOfMemory`. All causes become the same error.
impl From<RangeCause> for io::Error {
    ghost from_gives = { λ _ error. error_kind error ≡ OutOfMemory };

    fn from(_cause: RangeCause) -> io::Error {
        out_of_memory()
    }
}

/// A refused call as an error of memory, for `?`. The arguments are dropped.
impl<T: Drop> From<RangeRefused<T>> for AllocError {
    fn from(_refused: RangeRefused<T>) -> AllocError {
        AllocError
    }
}

/// A refused call as an error of input and output, of the kind `OutOfMemory`. The arguments are dropped.
impl<T: Drop> From<RangeRefused<T>> for io::Error {
    ghost from_gives = { λ _ error. error_kind error ≡ OutOfMemory };

    fn from(_refused: RangeRefused<T>) -> io::Error {
        out_of_memory()
    }
}

fn cause_by_node(cause: Cause) -> RangeCause
    ensures { result ≡ by_node cause }
{
    match cause {
        Cause::Store => RangeCause::Store,
        Cause::Count => RangeCause::Count,
    }
}

/// The refusal of a call whose node was refused, with these arguments.
pub(crate) fn refused_as<K: Drop, V: Drop, T>(
    refused: Refused<K, V>,
    key: u64,
    value: T,
) -> RangeRefused<T>
    ensures cause { result.cause ≡ by_node refused.cause }
    ensures returned { (result.key ≡ key) × (result.value ≡ value) }
{
    RangeRefused {
        cause: cause_by_node(refused.cause),
        key,
        value,
    }
}

/// The refusal of a call whose node was refused, with the arguments that were refused.
pub(crate) fn refused_by_node<T>(refused: Refused<u64, T>) -> RangeRefused<T>
    ensures cause { result.cause ≡ by_node refused.cause }
    ensures returned { (result.key ≡ refused.key) × (result.value ≡ refused.value) }
{
    let Refused { cause, key, value } = refused;
    RangeRefused {
        cause: cause_by_node(cause),
        key,
        value,
    }
}
