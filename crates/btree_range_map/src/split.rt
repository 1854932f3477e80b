//! A value that is given to numbers inside a range of another value, on the tree of a map of ranges, by addresses.
ghost use Rattle.std.specs.Prelude.{◌≡◌, IfErr, OnOk};
ghost use Rattle.btree_range_map.specs.Steps.{Assigns, CanSplit, IsRefusedIn};

use crate::edits::set_end;
use crate::refused::{refused_as, refused_by_node};
use crate::{RangeRefused, Span};
use btree_ext::{BTreeExt, BTreeExtMut};
use btree_item::{Address, Item};
use btree_map::BTreeMap;
use btree_node::NodesMut;

/// Gives the numbers from `start` up to `span.end` a value inside the range before an address, which goes on past them on both sides. `last` is
/// a clone of its span. Two ranges are added. If the second is refused, the first is removed again.
pub(crate) fn split<V: Clone + Eq, C: NodesMut<u64, Span<V>>>(
    map: &mut BTreeMap<u64, Span<V>, C>,
    at: Address,
    start: u64,
    span: Span<V>,
    last: Span<V>,
) -> Result<(), RangeRefused<Span<V>>>
    requires { CanSplit map.old at start span last }
    ensures assigned { OnOk result (Assigns map.old map.new start span) }
    ensures returned { IfErr result (λ r. (r.key ≡ start) × (r.value ≡ span)) }
    ensures cause { IfErr result (λ r. IsRefusedIn map.old map.new 2 r.cause) }
{
    match map.insert_at(at, Item::new(span.end, last)) {
        Ok(right) => match map.insert_at(right, Item::new(start, span)) {
            Ok(middle) => {
                let Some(left) = map.previous_item_address(middle) else {
                    unreachable!()
                };
                set_end(map, left, start);
                Ok(())
            }
            Err(refused) => {
                let Some((_range, _gap)) = map.remove_at(right) else {
                    unreachable!()
                };
                Err(refused_by_node(refused))
            }
        },
        Err(refused) => Err(refused_as(refused, start, span)),
    }
}
