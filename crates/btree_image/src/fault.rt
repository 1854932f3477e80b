//! What is wrong with the bytes of a tree.
ghost use Rattle.std.specs.Prelude.{◌≡◌};
ghost use Rattle.btree_image.specs.declared.fault.ReadError.TheVariants as errors;

/// What is wrong with the bytes of a tree.
#[derive(Clone, Copy, Debug, PartialEq, Eq)]
pub enum BadImage {
    /// They end within a word, or before one.
    Short,
    /// They do not begin as those of a tree do.
    Magic,
    /// They are of another version.
    Version,
    /// A place is neither vacant, a leaf nor an internal node.
    Kind,
    /// A node has no items, or more than it has room for.
    Count,
    /// A key or a value is not of its type, or the bytes end within it.
    Value,
    /// The last place is vacant.
    Vacant,
    /// The check sum is another one.
    Sum,
    /// Bytes follow the check sum.
    Trailing,
}

/// The first fault of bytes, from left to right, and how many bytes are left where the word or the value begins that has it.
#[derive(Clone, Copy, Debug, PartialEq, Eq)]
pub struct Stop {
    pub fault: BadImage,
    pub left: usize,
}

/// Why bytes are not read as a tree.
#[derive(Clone, Copy, Debug, PartialEq, Eq)]
pub enum ReadError {
    /// The store refused a node.
    Store,
    /// The first fault of the bytes.
    Image(Stop),
}

impl From<Stop> for ReadError {
    ghost from_gives = { λ stop e. e ≡ errors.Image stop };

    fn from(stop: Stop) -> ReadError {
        ReadError::Image(stop)
    }
}
