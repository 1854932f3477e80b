//! A value that owns memory.
ghost use Rattle.std.specs.Cmp.Lexicographic.{nat_list_eq_equiv, pointwise};
ghost use Rattle.std.specs.Cmp.{partial_equiv_from_equiv};
ghost use Rattle.std.specs.Prelude.{◌≡◌, nat_eq};

use std::alloc::{AllocError, Global};
use std::marker::Model;
use test_support::Refusing;

/// A text, of which each clone has memory of its own, that may be refused. Contracts see its bytes alone, so that it is equal to a clone.
#[derive(Drop)]
pub(crate) struct Text {
    text: String<Refusing<Global>>,
    alloc: Global,
    // Which allocation of a clone is refused: 1 is the first one, 0 is none.
    refuses: u64,
}

impl Model for Text {
    ghost use Rattle.std.specs.Prelude.{List, string_bytes, ℕ};

    ghost Value = { List ℕ };

    ghost view = { λ t. string_bytes t.text };
}

impl Clone for Text {
    ghost is_clone = { λ text copy. copy ≡ text };

    fn clone(&self) -> Result<Text, AllocError> {
        let memory = Refusing::over(self.alloc, self.refuses);
        let text = String::from_str(memory, self.text.as_str())?;
        Ok(Text {
            text,
            alloc: self.alloc,
            refuses: self.refuses,
        })
    }
}

impl PartialEq for Text {
    ghost eq = { pointwise nat_eq };

    ghost laws = { partial_equiv_from_equiv nat_list_eq_equiv };

    fn eq(&self, other: &Text) -> bool {
        self.text.as_str() == other.text.as_str()
    }
}

impl Eq for Text {
    ghost laws = { nat_list_eq_equiv };
}

/// A value that is a text.
#[cfg(test)]
pub(crate) trait IsText {
    /// Returns a text without letters. Of the allocations of each clone the one with the number `refuses` is refused, and for 0 none.
    fn empty(alloc: Global, refuses: u64) -> Self;

    /// Adds letters at its end.
    fn push(&mut self, letters: &str) -> Result<(), AllocError>;

    /// Returns its letters.
    fn letters(&self) -> &str;
}

#[cfg(test)]
impl IsText for Text {
    fn empty(alloc: Global, refuses: u64) -> Text {
        Text {
            text: String::new(Refusing::over(alloc, 0)),
            alloc,
            refuses,
        }
    }

    fn push(&mut self, letters: &str) -> Result<(), AllocError> {
        self.text.push_str(letters)
    }

    fn letters(&self) -> &str {
        self.text.as_str()
    }
}
