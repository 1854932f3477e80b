//! A part of a stock: a type of its own that is saved.
ghost use Rattle.std.specs.Prelude.{◌≡◌, refl};

use btree_save::SpelledAs;

/// How many there are of a part, and what one weighs.
#[derive(Clone, Copy, Debug, PartialEq, Eq)]
pub struct Part {
    pub count: u32,
    pub grams: u32,
}

/// Its bytes are those of its count, then those of its weight.
impl SpelledAs for Part {
    type Parts = (u32, u32);

    ghost parts = { λ part. (part.count, part.grams) };

    ghost whole = { λ pair. record { count = pair.0; grams = pair.1 } };

    fn to_parts(&self) -> (u32, u32) {
        (self.count, self.grams)
    }

    fn from_parts((count, grams): (u32, u32)) -> Part {
        Part { count, grams }
    }

    ghost again = { λ _. refl };

    ghost only = { λ _. refl };
}
