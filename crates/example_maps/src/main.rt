//! Maps in use: a stock of parts, by part number, a listing of them by pages (`listing.rt`), a removal of those that are sold out
//! (`sold_out.rt`), a part that gets another number (`renumbered.rt`), a stock read from a file (`lines.rt`), bookings of a room
//! (`bookings.rt`, `booked.rt`), orders by price (`orders.rt`), a count of words (`words.rt`), one of strings by their texts (`texts.rt`), a
//! log listed by minutes (`minutes.rt`), a count of visits in a fixed table (`visits.rt`), a cache of a bounded number of pairs
//! (`cache.rt`), what threads may share (`shared.rt`), and a map read from a copy of its nodes (`copies.rt`). A set of pairs in use: the
//! shelves on which parts lie (`shelves.rt`). A set of ranges in use: reserved blocks (`reserved.rt`). A map of ranges in use: who owns
//! which addresses (`memory.rt`).
#![tactic(auto)]

ghost use Rattle.std.specs.Prelude.{◌≡◌, ◌+◌, OnOk, OnErr, unwrap_or};
ghost use Rattle.std.specs.Ordering.{nat_cmp};
ghost use Rattle.btree_slab.specs.Pairs.{found_value, inserted};
ghost use Rattle.btree_slab.specs.TreeState.{IsValidIn, pairs_of};

mod booked;
mod bookings;
mod cache;
mod copies;
mod lines;
mod listing;
mod memory;
mod minutes;
mod orders;
mod renumbered;
mod reserved;
mod shared;
mod shelves;
mod sold_out;
mod texts;
mod visits;
mod words;

use crate::booked::{book_and_cancel, three_bookings};
use crate::bookings::count_overlaps;
use crate::cache::put;
use crate::copies::{is_readable, read_copy};
use crate::lines::read_stock;
use crate::listing::{count_parts, next_page};
use crate::memory::{
    Owner, give, hand_over, owner_of, region_of, release, reserve as reserve_memory, take_over,
};
use crate::minutes::{Minute, logged};
use crate::orders::{cancel, take_best};
use crate::renumbered::renumber;
use crate::reserved::reserve;
use crate::shelves::append_shelves;
use crate::sold_out::remove_sold_out;
use crate::texts::{count_of, count_text};
use crate::visits::count_visit;
use crate::words::count_word;
use btree_slab::generic::map::{RawBTree, Refused};
use btree_slab::range_map::Span;
use btree_slab::store::{CloneNodes, NodesMut};
use btree_slab::{
    Address, BTreeExt, BTreeExtMut, BTreeMap, BTreeSet, FixedMap, RangeMap, RangeSet, generic,
    range_map, range_set,
};
use std::alloc::Global;
use std::io;
use std::rt::Files;

/// Sets how many of a part are in stock.
///
/// The map's contract says what the stock holds afterwards, and that a refused insertion changes nothing.
fn set_stock(stock: &mut BTreeMap<u32, u64>, part: u32, count: u64) -> Result<(), Refused<u32, u64>>
    ensures set { OnOk result (pairs_of stock.new ≡ inserted nat_cmp part count (pairs_of stock.old)) }
    ensures kept { OnErr result (pairs_of stock.new ≡ pairs_of stock.old) }
{
    stock.insert(part, count)?;
    Ok(())
}

/// How many of a part are in stock, and 0 for a part that was never there.
fn in_stock(stock: &BTreeMap<u32, u64>, part: u32) -> u64
    ensures { result ≡ unwrap_or (found_value nat_cmp part (pairs_of stock.now)) 0 }
{
    stock.get(&part).copied().unwrap_or(0)
}

/// Takes the part at an address out and puts it back, as for a count by hand. Returns its count, or `None` if no part is at the address.
///
/// Both steps may move parts to other nodes. The removal returns the address that its place has afterwards, and the map's contracts say
/// that an insertion there gives the same stock again.
fn take_and_put_back(
    stock: &mut BTreeMap<u32, u64>,
    part: Address,
) -> Result<Option<u64>, Refused<u32, u64>>
    requires { IsValidIn stock.old part }
    ensures same { OnOk result (pairs_of stock.new ≡ pairs_of stock.old) }
{
    let Some((item, place)) = stock.remove_at(part) else {
        return Ok(None);
    };
    let count = *item.value();
    stock.insert_at(place, item)?;
    Ok(Some(count))
}

/// Prints where so many blocks are reserved, if there is room.
fn print_room(rt: &impl Print, size: u64, start: Option<u64>) -> io::Result<()> {
    match start {
        Some(start) => rt.println(format_args!("{size} blocks: from {start}")),
        None => rt.println(format_args!("{size} blocks: no room")),
    }
}

/// Prints which of 32 blocks are free.
fn print_gaps<C: NodesMut<u64, u64>>(
    rt: &impl Print,
    reserved: &range_set::RangeSet<C>,
) -> io::Result<()> {
    for (start, end) in reserved.gaps(0, 32) {
        rt.println(format_args!("free: {start} to {end}"))?;
    }
    Ok(())
}

/// Prints where blocks are reserved, of 32, and which are free then.
fn print_blocks<C: NodesMut<u64, u64>>(
    rt: &impl Print,
    reserved: &mut range_set::RangeSet<C>,
) -> io::Result<()> {
    reserved.insert(0, 14)?;
    reserved.remove(2, 8)?;
    for size in [7, 5, 12] {
        let start = reserve(reserved, size, 32)?;
        print_room(rt, size, start)?;
    }
    print_gaps(rt, &*reserved)
}

/// Prints where a region is, if there is one.
fn print_region(rt: &impl Print, is: &str, region: Option<(u64, &Span<Owner>)>) -> io::Result<()> {
    match region {
        Some((start, span)) => rt.println(format_args!("{is}: {start} to {}", span.end)),
        None => Ok(()),
    }
}

/// Prints each region and its owner.
fn print_regions<C: NodesMut<u64, Span<Owner>>>(
    rt: &impl Print,
    memory: &range_map::RangeMap<Owner, C>,
) -> io::Result<()> {
    for (start, span) in memory.iter() {
        rt.println(format_args!("{start} to {}: {:?}", span.end, span.value))?;
    }
    Ok(())
}

/// Prints who owns which addresses, of a hundred. Some are reserved, and some of these given away and back.
fn print_memory<C: NodesMut<u64, Span<Owner>>>(
    rt: &impl Print,
    memory: &mut range_map::RangeMap<Owner, C>,
) -> io::Result<()> {
    give(memory, 0, 16, Owner::System)?;
    let start = reserve_memory(memory, 40, 100, Owner::Process(1))?;
    rt.println(format_args!("40 addresses: from {}", start.unwrap_or(100)))?;
    for (owner, is) in [(2, "a part"), (1, "the whole")] {
        give(memory, 30, 40, Owner::Process(owner))?;
        print_region(rt, is, region_of(memory, 20))?;
    }
    print_released(rt, memory)
}

/// Prints who owns them once some are released, and some handed over.
fn print_released<C: NodesMut<u64, Span<Owner>>>(
    rt: &impl Print,
    memory: &mut range_map::RangeMap<Owner, C>,
) -> io::Result<()> {
    release(memory, 20, 24)?;
    rt.println(format_args!("22 is free: {}", owner_of(memory, 22).is_none()))?;
    hand_over(memory, 10, 40, Owner::Process(1), Owner::Process(2))?;
    print_regions(rt, &*memory)
}

/// Prints how many regions a process takes over, of three that touch its addresses, and who owns one of them then.
fn print_taken<C: NodesMut<u64, Span<Owner>>>(
    rt: &impl Print,
    memory: &mut range_map::RangeMap<Owner, C>,
) -> io::Result<()> {
    give(memory, 0, 4, Owner::System)?;
    give(memory, 8, 12, Owner::Process(1))?;
    give(memory, 12, 14, Owner::Process(2))?;
    let regions = take_over(memory, 2, 13, Owner::Process(3))?;
    rt.println(format_args!("taken over: {regions} regions"))?;
    rt.println(format_args!("address 10: {:?}", owner_of(memory, 10)))
}

/// Prints each word, and how often it occurs.
fn print_words(rt: &impl Print, counts: &BTreeMap<&'static str, u64>) -> io::Result<()> {
    for (word, count) in counts.iter() {
        rt.println(format_args!("{word}: {count}"))?;
    }
    Ok(())
}

/// Prints how often each of a few words occurs.
fn print_counts(rt: &impl Print, alloc: Global) -> io::Result<()> {
    let mut counts: BTreeMap<&'static str, u64> = BTreeMap::new(alloc);
    for word in ["to", "be", "or", "not", "to", "be"] {
        count_word(&mut counts, word)?;
    }
    print_words(rt, &counts)
}

/// Prints how often two of a few words occur, in a map of strings.
fn print_texts<C: NodesMut<String, u64>>(
    rt: &impl Print,
    alloc: Global,
    counts: &mut generic::BTreeMap<String, u64, C>,
) -> io::Result<()> {
    for word in ["to", "be", "or", "not", "to", "be"] {
        count_text(counts, alloc, word)?;
    }
    for word in ["be", "bee"] {
        rt.println(format_args!("texts: {word} {}", count_of(counts, word)))?;
    }
    Ok(())
}

/// Prints what was logged in two minutes.
fn print_log<C: NodesMut<u64, u32>>(
    rt: &impl Print,
    log: &mut generic::BTreeMap<u64, u32, C>,
) -> io::Result<()> {
    for (second, door) in [(59, 3), (180, 2), (60, 1), (119, 3), (179, 1)] {
        log.insert(second, door)?;
    }
    for (second, door) in logged(log, Minute { number: 1 }, Minute { number: 3 }) {
        rt.println(format_args!("second {second}: door {door}"))?;
    }
    Ok(())
}

/// Prints the shelves of a part, of which one is cleared.
fn print_shelves<C: NodesMut<(u32, u32), ()>>(
    rt: &impl Print,
    alloc: Global,
    shelves: &mut generic::BTreeSet<(u32, u32), C>,
) -> io::Result<()> {
    for pair in [(408, 4), (17, 1), (408, 1), (408, 3)] {
        shelves.insert(pair)?;
    }
    shelves.remove(&(408, 3));
    let mut found = Vec::new(alloc);
    append_shelves(shelves, &408, &mut found)?;
    for shelf in found.iter() {
        rt.println(format_args!("408 is on shelf {shelf}"))?;
    }
    Ok(())
}

/// Prints how often each of a few doors was used. The nodes are in a table of two, which takes at least six doors.
fn print_visits(rt: &impl Print) -> io::Result<()> {
    let mut visits: FixedMap<u32, u64, 2> = FixedMap::new(());
    for door in [3, 1, 3, 2, 3] {
        count_visit(&mut visits, door)?;
    }
    for (door, count) in visits.iter() {
        rt.println(format_args!("door {door}: {count}"))?;
    }
    Ok(())
}

/// Prints whether a copy can be read.
fn print_readable<C: NodesMut<u32, u64>>(
    rt: &impl Print,
    copy: &RawBTree<u32, u64, C>,
) -> io::Result<()> {
    rt.println(format_args!("the first copy can be read: {}", is_readable(copy)))
}

/// Prints what is read of two copies.
fn print_read<C: NodesMut<u32, u64> + Drop>(
    rt: &impl Print,
    first: RawBTree<u32, u64, C>,
    second: RawBTree<u32, u64, C>,
) -> io::Result<()> {
    match read_copy(first, second) {
        Ok(read) => rt.println(format_args!("parts in the second copy: {}", read.len())),
        Err((_copy, fault)) => rt.println(format_args!("no copy is whole: {fault:?}")),
    }
}

/// Prints what is read of a stock of which the first copy has a wrong length.
fn print_copies<C: CloneNodes<u32, u64> + Drop>(
    rt: &impl Print,
    stock: generic::BTreeMap<u32, u64, C>,
) -> io::Result<()> {
    let mut first = stock.clone()?.into_raw();
    first.set_len(7);
    print_readable(rt, &first)?;
    print_read(rt, first, stock.into_raw())
}

/// Prints the parts that are in one set and not in another.
fn print_difference<D: NodesMut<u32, ()>>(
    rt: &impl Print,
    order: &generic::BTreeSet<u32, D>,
    parts: &generic::BTreeSet<u32, D>,
) -> io::Result<()> {
    for part in order.difference(parts) {
        rt.println(format_args!("missing: {part}"))?;
    }
    Ok(())
}

/// Prints the parts of an order that are not in stock.
fn print_missing<C: NodesMut<u32, u64>, D: NodesMut<u32, ()>>(
    rt: &impl Print,
    stock: &generic::BTreeMap<u32, u64, C>,
    order: &mut generic::BTreeSet<u32, D>,
    parts: &mut generic::BTreeSet<u32, D>,
) -> io::Result<()> {
    for part in [408, 1203, 2000] {
        order.insert(part)?;
    }
    parts.extend_copied(&mut stock.keys())?;
    print_difference(rt, &*order, &*parts)
}

/// The same over two new sets.
fn print_order<C: NodesMut<u32, u64>>(
    rt: &impl Print,
    alloc: Global,
    stock: &generic::BTreeMap<u32, u64, C>,
) -> io::Result<()> {
    print_missing(
        rt,
        stock,
        &mut BTreeSet::new(alloc),
        &mut BTreeSet::new(alloc),
    )
}

/// Fills a stock, and prints what is in it.
fn print_stock(rt: &impl Print, stock: &mut BTreeMap<u32, u64>) -> io::Result<()> {
    for (part, count) in [(408, 20), (17, 350), (1203, 4), (17, 349)] {
        set_stock(stock, part, count)?;
    }
    rt.println(format_args!("parts: {}", stock.len()))?;
    rt.println(format_args!("part 408: {}", in_stock(stock, 408)))?;
    rt.println(format_args!("part 409: {}", in_stock(stock, 409)))?;
    let Ok(part) = stock.address_of(&408) else {
        return Ok(());
    };
    let counted = take_and_put_back(stock, part)?;
    rt.println(format_args!("counted: {}", counted.unwrap_or(0)))?;
    for (part, count) in stock.iter() {
        rt.println(format_args!("{part} {count}"))?;
    }
    Ok(())
}

/// Prints a page of the parts, and how many are left once one is sold out.
fn print_page(rt: &impl Print, alloc: Global, stock: &mut BTreeMap<u32, u64>) -> io::Result<()> {
    let mut page = Vec::new(alloc);
    next_page(stock, 17, 2, &mut page)?;
    for part in page.iter() {
        rt.println(format_args!("after 17: {part}"))?;
    }
    rt.println(format_args!("before 1203: {}", count_parts(stock, 17, 1203)))?;
    set_stock(stock, 408, 0)?;
    remove_sold_out(stock, &17);
    rt.println(format_args!("not sold out: {}", stock.len()))
}

/// Prints whether two parts got another number, and how many of the one are in stock.
fn print_renumbered(rt: &impl Print, alloc: Global) -> io::Result<()> {
    let mut stock: BTreeMap<u32, u64> = BTreeMap::new(alloc);
    set_stock(&mut stock, 408, 20)?;
    for (part, number) in [(408, 410), (500, 1)] {
        let is = renumber(&mut stock, part, number)?;
        rt.println(format_args!("{part} is {number}: {is}"))?;
    }
    rt.println(format_args!("part 410: {}", in_stock(&stock, 410)))
}

/// Prints how many bookings overlap a time.
fn print_bookings(rt: &impl Print, alloc: Global) -> io::Result<()> {
    let mut bookings = three_bookings(alloc)?;
    let free = book_and_cancel(&mut bookings, 12, 14)?;
    rt.println(format_args!("12 is free: {free}"))?;
    for (start, end) in [(10, 14), (12, 14)] {
        let count = count_overlaps(&bookings, start, end);
        rt.println(format_args!("bookings from {start} to {end}: {count}"))?;
    }
    Ok(())
}

/// Prints what leaves a cache of six pairs, in a table of two nodes.
fn print_cache(rt: &impl Print) -> io::Result<()> {
    let mut cache: FixedMap<u32, u32, 2> = FixedMap::with_limit((), 6);
    for key in 1..9u32 {
        if let Some((gone, _)) = put(&mut cache, key, key)? {
            rt.println(format_args!("no more in the cache: {gone}"))?;
        }
    }
    Ok(())
}

/// Prints what is taken of three orders, of which one is cancelled.
fn print_orders<C: NodesMut<(u64, u64), u64>>(
    rt: &impl Print,
    orders: &mut generic::BTreeMap<(u64, u64), u64, C>,
) -> io::Result<()> {
    for (price, number, amount) in [(100, 1, 5), (99, 2, 3), (100, 3, 4)] {
        orders.insert((price, number), amount)?;
    }
    let cancelled = cancel(orders, 100, 1);
    rt.println(format_args!("cancelled: {}", cancelled.unwrap_or(0)))?;
    for wanted in [4, 1] {
        let taken = take_best(orders, wanted);
        rt.println(format_args!("taken: {taken}"))?;
    }
    for ((price, number), amount) in orders.iter() {
        rt.println(format_args!("order {number} at {price}: {amount}"))?;
    }
    Ok(())
}

/// Prints what is read of two files, of which one has a line without a count.
fn print_files<C: NodesMut<u32, u64>>(
    rt: &(impl Print + Files + AllocGlobal),
    stock: &mut generic::BTreeMap<u32, u64, C>,
) -> io::Result<()> {
    for path in ["parts.txt", "torn.txt"] {
        match read_stock(rt, stock, path) {
            Ok(()) => rt.println(format_args!("{path}: {} parts", stock.len()))?,
            Err(error) => rt.println(format_args!("{path}: {error}"))?,
        }
    }
    Ok(())
}

/// What is done with one stock.
fn print_parts(rt: &impl Print, alloc: Global) -> io::Result<()> {
    let mut stock: BTreeMap<u32, u64> = BTreeMap::new(alloc);
    print_stock(rt, &mut stock)?;
    print_page(rt, alloc, &mut stock)?;
    print_order(rt, alloc, &stock)?;
    print_copies(rt, stock)
}

// Each of the following makes the map or the set that is printed. One that made several would take much longer to prove.
fn print_new_blocks(rt: &impl Print, alloc: Global) -> io::Result<()> {
    print_blocks(rt, &mut RangeSet::new(alloc))
}

fn print_new_memory(rt: &impl Print, alloc: Global) -> io::Result<()> {
    print_memory(rt, &mut RangeMap::new(alloc))
}

fn print_new_taken(rt: &impl Print, alloc: Global) -> io::Result<()> {
    print_taken(rt, &mut RangeMap::new(alloc))
}

fn print_new_texts(rt: &impl Print, alloc: Global) -> io::Result<()> {
    print_texts(rt, alloc, &mut BTreeMap::new(alloc))
}

fn print_new_log(rt: &impl Print, alloc: Global) -> io::Result<()> {
    print_log(rt, &mut BTreeMap::new(alloc))
}

fn print_new_shelves(rt: &impl Print, alloc: Global) -> io::Result<()> {
    print_shelves(rt, alloc, &mut BTreeSet::new(alloc))
}

fn print_new_orders(rt: &impl Print, alloc: Global) -> io::Result<()> {
    print_orders(rt, &mut BTreeMap::new(alloc))
}

/// Ranges of numbers.
fn print_ranges(rt: &impl Print, alloc: Global) -> io::Result<()> {
    print_new_blocks(rt, alloc)?;
    print_new_memory(rt, alloc)?;
    print_new_taken(rt, alloc)
}

/// Maps with keys of several kinds, and a set.
fn print_kinds(rt: &impl Print, alloc: Global) -> io::Result<()> {
    print_counts(rt, alloc)?;
    print_new_texts(rt, alloc)?;
    print_new_log(rt, alloc)?;
    print_new_shelves(rt, alloc)?;
    print_new_orders(rt, alloc)
}

fn main(rt: HostRuntime) -> io::Result<()> {
    print_parts(&rt, rt.alloc())?;
    print_renumbered(&rt, rt.alloc())?;
    print_bookings(&rt, rt.alloc())?;
    print_ranges(&rt, rt.alloc())?;
    print_kinds(&rt, rt.alloc())?;
    print_visits(&rt)?;
    print_cache(&rt)?;
    print_files(&rt, &mut BTreeMap::new(rt.alloc()))
}
