//! The check sum of bytes.
ghost use Rattle.std.specs.Prelude.{◌≡◌};
ghost use Rattle.btree_image.specs.Image.{check_sum};

use sha2::{Digest, Sha256};

/// Returns the check sum of bytes: the first word of their SHA-256.
pub fn check_sum_of(bytes: &[u8]) -> u64
    ensures { result ≡ check_sum bytes.now }
{
    let digest = Sha256::digest(bytes);
    let (front, _rest) = digest.as_slice().split_at(8);
    u64::from_be_bytes([
        front[0], front[1], front[2], front[3], front[4], front[5], front[6], front[7],
    ])
}
