//! The memory of a machine, and who owns which addresses: a map of ranges. Two regions of one owner that touch are one region.
ghost use Rattle.std.specs.Prelude.{◌≡◌, ◌≤◌, ◌<◌, IfErr, IfNone, IfOk, IfSome, None, OnErr, OnOk, length, min};
ghost use Rattle.btree_slab.specs.RangeMapRanges.{IsAssigned, IsCleared, IsMaximalRun, range_now, value_at};
ghost use Rattle.btree_slab.specs.RangeMapUpdates.{IsMapped, parts_between};
ghost use Rattle.example_maps.specs.Memory.{Reserves, handed};

use btree_slab::range_map::{RangeMap, RangeRefused, Span};
use btree_slab::store::NodesMut;

/// Who owns an address.
#[derive(Clone, Copy, Debug, PartialEq, Eq, Drop)]
pub enum Owner {
    /// The system.
    System,
    /// A process, by its number.
    Process(u32),
}

/// Reserves the first `size` addresses in a row below `end` that are free, and returns the first one. Returns `None`, and nothing changes, if
/// there are no such addresses.
pub fn reserve<C: NodesMut<u64, Span<Owner>>>(
    memory: &mut RangeMap<Owner, C>,
    size: u64,
    end: u64,
    owner: Owner,
) -> Result<Option<u64>, RangeRefused<Span<Owner>>>
    ensures reserved { IfOk result (Reserves end size owner memory.old memory.new) }
    ensures kept { OnErr result (memory.new.ranges ≡ memory.old.ranges) }
{
    let Some(start) = memory.first_fit(0, end, size) else {
        return Ok(None);
    };
    memory.insert(start, start + size, owner)?;
    Ok(Some(start))
}

/// Gives addresses to an owner. A region that has more than these is split: the rest stays with its owner.
pub fn give<C: NodesMut<u64, Span<Owner>>>(
    memory: &mut RangeMap<Owner, C>,
    start: u64,
    end: u64,
    owner: Owner,
) -> Result<(), RangeRefused<Span<Owner>>>
    ensures given { OnOk result
        (IsAssigned memory.old.ranges start end owner memory.new.ranges) }
    ensures kept { OnErr result (memory.new.ranges ≡ memory.old.ranges) }
{
    memory.insert(start, end, owner)
}

/// Frees addresses.
pub fn release<C: NodesMut<u64, Span<Owner>>>(
    memory: &mut RangeMap<Owner, C>,
    start: u64,
    end: u64,
) -> Result<(), RangeRefused<u64>>
    ensures freed { OnOk result (IsCleared memory.old.ranges start end memory.new.ranges) }
    ensures kept { OnErr result (memory.new.ranges ≡ memory.old.ranges) }
{
    memory.remove(start, end)
}

/// Hands the addresses from `start` up to `end` that one owner has over to another. If a region is refused, those below it have been handed
/// over, and no other.
pub fn hand_over<C: NodesMut<u64, Span<Owner>>>(
    memory: &mut RangeMap<Owner, C>,
    start: u64,
    end: u64,
    from: Owner,
    to: Owner,
) -> Result<(), RangeRefused<Span<Owner>>>
    ensures handed { OnOk result
        (IsMapped (handed from to) memory.old.ranges start end memory.new.ranges) }
    ensures stopped { IfErr result (λ r.
        IsMapped (handed from to) memory.old.ranges start r.key memory.new.ranges) }
    ensures inside { IfErr result (λ r.
        (start ≤ r.key) × (r.key < r.value.end) × (r.value.end ≤ end)) }
{
    let mut owner_then = |owner: &Owner| if *owner == from { to } else { *owner };
    memory.update(start, end, &mut owner_then)
}

/// Hands the addresses from `start` up to `end` that have an owner over to one. Returns how many regions they were in, at most `u32::MAX`.
pub fn take_over<C: NodesMut<u64, Span<Owner>>>(
    memory: &mut RangeMap<Owner, C>,
    start: u64,
    end: u64,
    to: Owner,
) -> Result<u32, RangeRefused<Span<Owner>>>
    ensures taken { OnOk result
        (IsMapped (λ owner. to) memory.old.ranges start end memory.new.ranges) }
    ensures counted { IfOk result (λ count.
        count ≡ min (length (parts_between start end memory.old.ranges)) u32.MAX) }
    ensures stopped { IfErr result (λ r.
        IsMapped (λ owner. to) memory.old.ranges start r.key memory.new.ranges) }
{
    let mut regions = 0u32;
    let mut count_and_take = |_: &Owner| {
        regions = regions.saturating_add(1);
        to
    };
    match memory.update(start, end, &mut count_and_take) {
        Ok(()) => Ok(regions),
        Err(refused) => Err(refused),
    }
}

/// Returns the owner of an address, or `None` if it is free.
pub fn owner_of<C: NodesMut<u64, Span<Owner>>>(
    memory: &RangeMap<Owner, C>,
    address: u64,
) -> Option<Owner>
    ensures { result ≡ value_at memory.now.ranges address }
{
    memory.get(address).copied()
}

/// Returns the whole region around an address: all addresses beside it that have its owner. Returns `None` if it is free.
pub fn region_of<C: NodesMut<u64, Span<Owner>>>(
    memory: &RangeMap<Owner, C>,
    address: u64,
) -> Option<(u64, &Span<Owner>)>
    ensures whole { IfSome result (λ region. IsMaximalRun memory.now.ranges (range_now region)) }
    ensures free { IfNone result (value_at memory.now.ranges address ≡ None) }
{
    memory.get_range(address)
}
