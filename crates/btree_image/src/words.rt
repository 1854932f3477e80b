//! Words of eight bytes, and values of a type of its own.
ghost use Rattle.std.specs.Prelude.{◌≡◌, ◌++◌, ◌<◌, ◌≤◌, Err, IfOk, OnOk, length};
ghost use Rattle.btree_view.specs.Kept.{kept_parent};
ghost use Rattle.btree_image.specs.Gives.{Gives};
ghost use Rattle.btree_image.specs.Image.{number, word};
ghost use Rattle.btree_image.specs.Reading.{count_at, number_at, this_at, value_at, word_at};
ghost use Rattle.btree_image.specs.Written.{IsReadBy};

use crate::fault::{BadImage, Stop};
use btree_spelled::Spelled;
use std::alloc::{AllocError, Allocator};

// A fault where these bytes are left.
pub(crate) fn stop<T>(fault: BadImage, bytes: &[u8]) -> Result<T, Stop>
    ensures { result ≡ Err (record { fault = fault; left = length bytes.now }) }
{
    Err(Stop {
        fault,
        left: bytes.len(),
    })
}

// Reads a word.
#[tactic(auto, unfolding(crate::specs::Reading::word_at))]
pub(crate) fn read_word(bytes: &[u8]) -> Result<(u64, &[u8]), Stop>
    ensures { Gives (λ x. (x.0, x.1.now)) result (word_at bytes.now) }
{
    if bytes.len() < 8 {
        return stop(BadImage::Short, bytes);
    }
    let (front, rest) = bytes.split_at(8);
    let word = u64::from_be_bytes([
        front[0], front[1], front[2], front[3], front[4], front[5], front[6], front[7],
    ]);
    Ok((word, rest))
}

// Reads a word that has to be this one.
#[tactic(auto, unfolding(crate::specs::Reading::this_at))]
pub(crate) fn read_this(wanted: u64, fault: BadImage, bytes: &[u8]) -> Result<&[u8], Stop>
    ensures { Gives (λ rest. (wanted, rest.now)) result (this_at wanted fault bytes.now) }
{
    let (word, rest) = read_word(bytes)?;
    if word != wanted {
        return stop(fault, bytes);
    }
    Ok(rest)
}

// Reads a number, where the greatest one stands for none.
#[tactic(auto, unfolding(crate::specs::Reading::number_at))]
pub(crate) fn read_number(bytes: &[u8]) -> Result<(Option<usize>, &[u8]), Stop>
    ensures number { Gives (λ x. (x.0, x.1.now)) result (number_at bytes.now) }
    ensures kept { IfOk result (λ x. kept_parent x.0 ≡ x.0) }
{
    let (word, rest) = read_word(bytes)?;
    if word == u64::MAX {
        return Ok((None, rest));
    }
    Ok((Some(word as usize), rest))
}

// Reads how many items a node has, which is at least 1 and at most `most`.
#[tactic(auto, unfolding(crate::specs::Reading::count_at))]
pub(crate) fn read_count(bytes: &[u8], most: u64) -> Result<(u64, &[u8]), Stop>
    ensures count { Gives (λ x. (x.0, x.1.now)) result (count_at most bytes.now) }
    ensures some { IfOk result (λ x. 0 < x.0) }
    ensures fits { IfOk result (λ x. x.0 ≤ most) }
{
    let (count, rest) = read_word(bytes)?;
    if count == 0 || count > most {
        return stop(BadImage::Count, bytes);
    }
    Ok((count, rest))
}

// Reads a value of a type of its own.
pub(crate) fn read_value<T: Spelled>(bytes: &[u8]) -> Result<(T, &[u8]), Stop>
    ensures { Gives (λ x. (x.0, x.1.now)) result (value_at T.read bytes.now) }
{
    let Some(value) = T::take(bytes) else {
        return stop(BadImage::Value, bytes);
    };
    Ok(value)
}

// Appends a word.
pub(crate) fn put_word<A: Allocator>(out: &mut Vec<u8, A>, n: u64) -> Result<(), AllocError>
    ensures appends { OnOk result (out.new.items ≡ out.old.items ++ word n) }
    ensures is_read { IsReadBy word_at word n }
{
    out.extend_from_slice(&n.to_be_bytes())
}

// Appends a number, or the greatest word for none.
pub(crate) fn put_number<A: Allocator>(
    out: &mut Vec<u8, A>,
    id: Option<usize>,
) -> Result<(), AllocError>
    ensures { OnOk result (out.new.items ≡ out.old.items ++ number id) }
{
    match id {
        Some(id) => put_word(out, id as u64),
        None => put_word(out, u64::MAX),
    }
}
