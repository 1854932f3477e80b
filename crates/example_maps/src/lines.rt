//! A stock read from a file with a line for each part. Every error becomes one of `anyhow`.
ghost use Rattle.std.specs.Prelude.{◌≡◌, OnErr};
ghost use Rattle.btree_slab.specs.TreeState.{pairs_of};

use anyhow::{Context, Result};
use btree_slab::generic::BTreeMap;
use btree_slab::store::NodesMut;
use std::fs;
use std::rt::Files;

// Puts the part and the count of a line as `408 20` into a stock.
fn put_line<C: NodesMut<u32, u64>>(stock: &mut BTreeMap<u32, u64, C>, line: &str) -> Result<()>
    ensures { OnErr result (pairs_of stock.new ≡ pairs_of stock.old) }
{
    let (part, count) = line.split_once(' ').context("a line has no count")?;
    stock.insert(part.parse::<u32>()?, count.parse::<u64>()?)?;
    Ok(())
}

/// Puts the parts of a file into a stock, up to a line that is none, or that is refused.
pub fn read_stock<R: Files + AllocGlobal, C: NodesMut<u32, u64>>(
    rt: &R,
    stock: &mut BTreeMap<u32, u64, C>,
    path: &str,
) -> Result<()> {
    let text = fs::read_to_string(rt, path)?;
    for line in text.as_str().lines() {
        put_line(stock, line)?;
    }
    Ok(())
}
