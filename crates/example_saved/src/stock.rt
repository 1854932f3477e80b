//! A stock of parts, by their numbers.
ghost use Rattle.std.specs.Prelude.{◌≡◌, ◌↔◌, IfOk, IsFalse, IsTrue, OnErr};
ghost use Rattle.btree_slab.specs.TreeState.{IsOccupiedIn, pairs_of};
ghost use Rattle.btree_save.specs.SavedLaws.{SameAddresses};
ghost use Rattle.example_saved.specs.Recounts.{Recounts};

use crate::part::Part;
use anyhow::{Context, Result};
use btree_save::{SavedMap, bytes_of_map, map_of_bytes};
use btree_slab::{Address, BTreeExt, BTreeExtMut};
use std::alloc::Global;

/// Parts by their numbers.
pub type Stock = SavedMap<u32, Part>;

// Puts the part of a line as `408 20 5` into a stock: its number, how many there are, and what one weighs. A bad line changes nothing.
fn put_line(stock: &mut Stock, line: &str) -> Result<()>
    ensures { OnErr result (pairs_of stock.new ≡ pairs_of stock.old) }
{
    let (number, rest) = line.split_once(' ').context("a line has no count")?;
    let (count, grams) = rest.split_once(' ').context("a line has no weight")?;
    let part = Part {
        count: count.parse::<u32>()?,
        grams: grams.parse::<u32>()?,
    };
    stock.insert(number.parse::<u32>()?, part)?;
    Ok(())
}

/// Reads a stock from a text with a line for each part.
pub fn read_stock(alloc: Global, text: &str) -> Result<Stock> {
    let mut stock = Stock::new(alloc);
    for line in text.lines() {
        put_line(&mut stock, line)?;
    }
    Ok(stock)
}

/// Sets how many there are of the part at an address. Returns whether a part is there.
pub fn recount(stock: &mut Stock, at: Address, count: u32) -> bool
    ensures there { IsTrue result ↔ IsOccupiedIn stock.old at }
    ensures set { IsTrue result → Recounts stock.old stock.new at count }
    ensures kept { IsFalse result → (stock.new ≡ stock.old) }
{
    let Some(item) = stock.item(at) else {
        return false;
    };
    let grams = item.value().grams;
    stock.replace_value_at(at, Part { count, grams });
    true
}

/// Returns the stock that is opened from the bytes of a stock: the same parts, at the same addresses.
pub fn copy_of(alloc: Global, stock: &Stock) -> Result<Stock>
    ensures same { IfOk result (SameAddresses stock.now) }
{
    let bytes = bytes_of_map(alloc, stock)?;
    let copy: Stock = map_of_bytes(alloc, &bytes)?;
    Ok(copy)
}
