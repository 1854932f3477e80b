//! What stands before the places, and after them.
ghost use Rattle.std.specs.Prelude.{◌≡◌, ◌<◌, ◌≤◌, IfOk};
ghost use Rattle.btree_image.specs.Gives.{Gives};
ghost use Rattle.btree_image.specs.Reading.{end_at, head_at};

use crate::fault::{BadImage, Stop};
use crate::sum::check_sum_of;
use crate::words::{read_number, read_this, read_word, stop};
use crate::{MAGIC, VERSION};

// The tree but for its nodes, and how many places they have.
#[derive(Clone, Copy)]
pub(crate) struct Head {
    pub(crate) root: Option<usize>,
    pub(crate) len: usize,
    pub(crate) limit: usize,
    pub(crate) count: u64,
}

// Reads a head.
#[tactic(auto, unfolding(crate::specs::Reading::head_at))]
pub(crate) fn read_head(bytes: &[u8]) -> Result<(Head, &[u8]), Stop>
    ensures { Gives (λ x. (x.0, x.1.now)) result (head_at bytes.now) }
{
    let rest = read_this(MAGIC, BadImage::Magic, bytes)?;
    let rest = read_this(VERSION, BadImage::Version, rest)?;
    let (root, rest) = read_number(rest)?;
    let (len, rest) = read_word(rest)?;
    let (limit, rest) = read_word(rest)?;
    let (count, rest) = read_word(rest)?;
    let head = Head {
        root,
        len: len as usize,
        limit: limit as usize,
        count,
    };
    Ok((head, rest))
}

// Reads the check sum of the bytes before the rest, and finds nothing more.
#[tactic(auto, unfolding(crate::specs::Reading::end_at))]
pub(crate) fn read_end(bytes: &[u8], rest: &[u8]) -> Result<(), Stop>
    ensures { Gives (λ x. x) result (end_at bytes.now rest.now) }
{
    let before = bytes.len().saturating_sub(rest.len());
    let sum = check_sum_of(&bytes[..before]);
    let after = read_this(sum, BadImage::Sum, rest)?;
    if !after.is_empty() {
        return stop(BadImage::Trailing, after);
    }
    Ok(())
}
