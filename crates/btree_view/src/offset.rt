//! An index in a node as an offset.
ghost use Rattle.std.specs.Prelude.{◌≡◌, ◌<◌, Some};

use btree_item::Offset;

/// Returns the offset at an index.
pub fn offset_at(index: usize) -> Offset
    requires { index < usize.MAX }
    ensures { result ≡ Some index }
{
    Offset::from(index)
}
