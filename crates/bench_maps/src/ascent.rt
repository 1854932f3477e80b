//! Insertion in ascending order, each pair by its key, and all by one call.
use btree_map::BTreeMap;
use btree_node::NodesMut;
use std::alloc::AllocError;

/// Inserts the pairs of a map into another one, each by its key. Returns how many there are then.
pub fn ascend<C: NodesMut<u64, u64>>(
    map: &mut BTreeMap<u64, u64, C>,
    from: &BTreeMap<u64, u64, C>,
) -> Result<u64, AllocError> {
    for (key, value) in from.iter() {
        map.insert(*key, *value)?;
    }
    Ok(map.len() as u64)
}

/// Makes a map of the pairs of another one by `from_iter`.
pub fn collect<C: NodesMut<u64, u64> + Drop>(
    origin: C::Origin,
    from: &BTreeMap<u64, u64, C>,
) -> Result<BTreeMap<u64, u64, C>, AllocError> {
    let mut pairs = from.iter().map(|(key, value)| (*key, *value));
    match BTreeMap::<u64, u64, C>::from_iter(origin, &mut pairs) {
        Ok(map) => Ok(map),
        Err((_, refused)) => Err(refused.into()),
    }
}

/// Returns the length of a map that was made, or that it was not.
pub fn length<C: NodesMut<u64, u64>>(
    made: &Result<BTreeMap<u64, u64, C>, AllocError>,
) -> Result<u64, AllocError> {
    match made {
        Ok(map) => Ok(map.len() as u64),
        Err(_) => Err(AllocError),
    }
}
