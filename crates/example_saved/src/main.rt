//! A stock of parts that is saved, opened again, changed at an address that was kept, and saved again. Then a few files are opened: the parts
//! of each are printed, or its fault. If one has a fault, the program ends with status 1.
#![tactic(auto)]

mod part;
mod stock;

use crate::stock::{Stock, copy_of, read_stock, recount};
use anyhow::{Result, bail};
use btree_save::{open, save};
use btree_slab::BTreeExt;
use std::fs;
use std::process::ExitCode;
use std::rt::Files;

// Saves a stock as a file.
fn save_as<R: Files + AllocGlobal>(rt: &R, stock: &Stock, path: &str) -> Result<()> {
    let mut file = fs::create(rt, path)?;
    save(rt.alloc(), stock, &mut file)?;
    Ok(())
}

// Opens a file as a stock.
fn open_from<R: Files + AllocGlobal>(rt: &R, path: &str) -> Result<Stock> {
    let mut file = fs::open(rt, path)?;
    let stock: Stock = open(rt.alloc(), rt.alloc(), &mut file)?;
    Ok(stock)
}

// Saves the stock of a text, opens it, counts a part anew where it was, and saves it again. Prints how many there were, from a copy.
fn save_and_change<R: Files + AllocGlobal + Print>(rt: &R, text: &str, path: &str) -> Result<()> {
    let stock = read_stock(rt.alloc(), text)?;
    let Ok(bolts) = stock.address_of(&17) else {
        bail!("there is no part 17");
    };
    save_as(rt, &stock, path)?;
    let mut again = open_from(rt, path)?;
    let before = copy_of(rt.alloc(), &again)?;
    if !recount(&mut again, bolts, 349) {
        bail!("part 17 is gone");
    }
    if let Some(item) = before.item(bolts) {
        rt.println(format_args!("17: {} before", item.value().count))?;
    }
    save_as(rt, &again, path)
}

// Prints the parts of a file, or its fault. Returns whether it has none.
fn print_file<R: Files + AllocGlobal + Print>(rt: &R, path: &str) -> Result<bool> {
    let stock = match open_from(rt, path) {
        Ok(stock) => stock,
        Err(fault) => {
            rt.println(format_args!("{path}: {fault}"))?;
            return Ok(false);
        }
    };
    rt.println(format_args!("{path}: {} parts", stock.len()))?;
    for (number, part) in stock.iter() {
        rt.println(format_args!("{number}: {} of {} g", part.count, part.grams))?;
    }
    Ok(true)
}

fn main(rt: HostRuntime) -> Result<ExitCode> {
    let text = fs::read_to_string(&rt, "stock.txt")?;
    save_and_change(&rt, text.as_str(), "stock.sav")?;
    let mut code = ExitCode::SUCCESS;
    for path in ["stock.sav", "stock.txt", "torn.sav", "unsorted.sav"] {
        if !print_file(&rt, path)? {
            code = ExitCode::FAILURE;
        }
    }
    Ok(code)
}
