//! The first program: a stock of parts, in the order of their numbers.
#![tactic(auto)]

use btree_slab::BTreeMap;
use std::io;

fn main(rt: HostRuntime) -> io::Result<()> {
    let mut stock: BTreeMap<u32, u64> = BTreeMap::new(rt.alloc());
    stock.insert(408, 20)?;
    stock.insert(17, 350)?;
    stock.insert(17, 349)?;
    for (part, count) in stock.iter() {
        rt.println(format_args!("{part}: {count}"))?;
    }
    Ok(())
}
