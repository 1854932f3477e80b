//! Numbers, booleans, pairs and nothing as bytes.
#![tactic(auto, using(crate::specs::NumberLaws::again))]

ghost use Rattle.std.specs.Prelude.{◌≡◌, ◌++◌, OnOk, Some, option_map};
ghost use Rattle.btree_spelled.specs.NumberLaws.{bool-takes, byte-takes, pair-takes, u16-takes, u32-takes, u64-takes, unit-takes};
ghost use Rattle.btree_spelled.specs.Numbers.{bool_bytes, bool_read, byte_bytes, byte_read, number_bytes, number_read, unit_bytes, unit_read};
ghost use Rattle.btree_spelled.specs.Pairs.{pair_bytes, pair_read};
ghost use Rattle.std.specs.Int.{w16, w32, w64};

use crate::spelled::Spelled;
use std::alloc::{AllocError, Allocator};

impl Spelled for u8 {
    ghost spelling = { byte_bytes };

    ghost read = { byte_read };

    fn put<A: Allocator>(&self, out: &mut Vec<u8, A>) -> Result<(), AllocError> {
        out.extend_from_slice(&[*self])
    }

    #[tactic(auto, unfolding(crate::specs::Numbers::byte_read))]
    fn take(bytes: &[u8]) -> Option<(u8, &[u8])> {
        match bytes {
            [] => None,
            [byte, rest @ ..] => Some((*byte, rest)),
        }
    }

    ghost takes = { byte-takes };
}

impl Spelled for u16 {
    ghost spelling = { number_bytes w16 };

    ghost read = { number_read w16 };

    fn put<A: Allocator>(&self, out: &mut Vec<u8, A>) -> Result<(), AllocError> {
        out.extend_from_slice(&self.to_be_bytes())
    }

    #[tactic(auto, unfolding(crate::specs::Numbers::number_read))]
    fn take(bytes: &[u8]) -> Option<(u16, &[u8])> {
        if bytes.len() < 2 {
            return None;
        }
        let (front, rest) = bytes.split_at(2);
        Some((u16::from_be_bytes([front[0], front[1]]), rest))
    }

    ghost takes = { u16-takes };
}

impl Spelled for u32 {
    ghost spelling = { number_bytes w32 };

    ghost read = { number_read w32 };

    fn put<A: Allocator>(&self, out: &mut Vec<u8, A>) -> Result<(), AllocError> {
        out.extend_from_slice(&self.to_be_bytes())
    }

    #[tactic(auto, unfolding(crate::specs::Numbers::number_read))]
    fn take(bytes: &[u8]) -> Option<(u32, &[u8])> {
        if bytes.len() < 4 {
            return None;
        }
        let (front, rest) = bytes.split_at(4);
        Some((
            u32::from_be_bytes([front[0], front[1], front[2], front[3]]),
            rest,
        ))
    }

    ghost takes = { u32-takes };
}

impl Spelled for u64 {
    ghost spelling = { number_bytes w64 };

    ghost read = { number_read w64 };

    fn put<A: Allocator>(&self, out: &mut Vec<u8, A>) -> Result<(), AllocError> {
        out.extend_from_slice(&self.to_be_bytes())
    }

    #[tactic(auto, unfolding(crate::specs::Numbers::number_read))]
    fn take(bytes: &[u8]) -> Option<(u64, &[u8])> {
        if bytes.len() < 8 {
            return None;
        }
        let (front, rest) = bytes.split_at(8);
        Some((
            u64::from_be_bytes([
                front[0], front[1], front[2], front[3], front[4], front[5], front[6], front[7],
            ]),
            rest,
        ))
    }

    ghost takes = { u64-takes };
}

impl Spelled for () {
    ghost spelling = { unit_bytes };

    ghost read = { unit_read };

    #[tactic(auto, unfolding(crate::specs::Numbers::unit_read))]
    fn put<A: Allocator>(&self, _out: &mut Vec<u8, A>) -> Result<(), AllocError> {
        Ok(())
    }

    #[tactic(auto, unfolding(crate::specs::Numbers::unit_read))]
    fn take(bytes: &[u8]) -> Option<((), &[u8])> {
        Some(((), bytes))
    }

    ghost takes = { unit-takes };
}

impl Spelled for bool {
    ghost spelling = { bool_bytes };

    ghost read = { bool_read };

    fn put<A: Allocator>(&self, out: &mut Vec<u8, A>) -> Result<(), AllocError> {
        out.extend_from_slice(&[u8::from(*self)])
    }

    #[tactic(auto, unfolding(crate::specs::Numbers::bool_read))]
    fn take(bytes: &[u8]) -> Option<(bool, &[u8])> {
        match bytes {
            [0, rest @ ..] => Some((false, rest)),
            [1, rest @ ..] => Some((true, rest)),
            _ => None,
        }
    }

    ghost takes = { bool-takes };
}

impl<X: Spelled, Y: Spelled> Spelled for (X, Y) {
    ghost spelling = { pair_bytes X.spelling Y.spelling };

    ghost read = { pair_read X.read Y.read };

    fn put<A: Allocator>(&self, out: &mut Vec<u8, A>) -> Result<(), AllocError> {
        self.0.put(out)?;
        self.1.put(out)
    }

    #[tactic(auto, unfolding(crate::specs::Pairs::pair_read))]
    fn take(bytes: &[u8]) -> Option<((X, Y), &[u8])> {
        let (first, rest) = X::take(bytes)?;
        let (second, rest) = Y::take(rest)?;
        Some(((first, second), rest))
    }

    ghost takes = { pair-takes X.spelling Y.spelling X.read Y.read X.takes Y.takes };
}
