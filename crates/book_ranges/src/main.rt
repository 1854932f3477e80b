//! Calls of sets and maps of ranges, one a line: a book of rows, and a way to look at the library from the keyboard.
#![tactic(auto)]

mod desk;
mod gates;
mod help;
mod map_calls;
mod ranges;
mod set_calls;
mod stores;
mod things;

use crate::desk::{Pair, set_out};
use crate::gates::{Gated, Gates, make_gates};
use crate::stores::{Open, Stores};
use book_text::{Desk, Desks, Ending, serve};
use btree_more_stores::{FixedSlab, Gate, OddSlab};
use btree_node::{ClearNodes, Node};
use btree_range_map::{RangeMap, Span};
use btree_range_set::RangeSet;
use btree_store::SlabStore;
use std::alloc::Global;
use std::env::FillError;
use std::io;
use std::process::ExitCode;
use std::rt::Env;
use test_support::{Refusing, RefusingStore};

type SetNode = Node<u64, u64>;

type MapNode = Node<u64, Span<u64>>;

// Takes no arguments; one that cannot be read is an argument too.
fn check_arguments(rt: &impl Env) -> Result<(), Ending> {
    match rt.arg(1, &mut []) {
        Err(FillError::NotPresent) => Ok(()),
        _ => Err(Ending::WrongArguments),
    }
}

// A set and a map over two stores.
type OverStores<A, B> = Pair<RangeSet<A>, RangeMap<u64, B>>;

// Pairs over four kinds of stores: slabs, tables, slabs with odd numbers, and gates.
type FourPairs<A, B, C, D, E, F, G, H> = Stores<
    OverStores<A, B>,
    OverStores<C, D>,
    OverStores<E, F>,
    Gates<G, H>,
>;

// Returns a desk over each of four kinds of stores.
fn open_stores<
    A: ClearNodes<u64, u64, Origin = Global> + Drop,
    B: ClearNodes<u64, Span<u64>, Origin = Global> + Drop,
    C: ClearNodes<u64, u64, Origin = ()> + Drop,
    D: ClearNodes<u64, Span<u64>, Origin = ()> + Drop,
    E: ClearNodes<u64, u64, Origin = Global> + Drop,
    F: ClearNodes<u64, Span<u64>, Origin = Global> + Drop,
    G: Gated + Drop,
    H: Gated + Drop,
>(alloc: Global) -> FourPairs<A, B, C, D, E, F, G, H> {
    Stores {
        open: Open::Slab,
        slab: set_out((alloc, alloc)),
        table: set_out(((), ())),
        odd: set_out((alloc, alloc)),
        gate: make_gates(alloc),
    }
}

// Serves the lines of standard input on two desks.
fn serve_desks<P: Desk + Drop, Q: Desk + Drop>(
    rt: &(impl Print + Input + AllocGlobal),
    memory: &Refusing<Global>,
    plain: P,
    refusing: Q,
) -> Result<(), Ending> {
    let mut desks = Desks {
        plain,
        refusing,
        is_refusing: false,
    };
    let (mut input, mut output) = (rt.reader(), io::writer(rt));
    serve(rt.alloc(), memory, &mut desks, &mut input, &mut output)
}

// Serves the lines of standard input on two desks, the second one over stores from these origins.
fn serve_refusing<
    P: Desk + Drop,
    A: ClearNodes<u64, u64> + Drop,
    B: ClearNodes<u64, Span<u64>> + Drop,
>(
    rt: &(impl Print + Input + AllocGlobal),
    memory: &Refusing<Global>,
    plain: P,
    origins: (A::Origin, B::Origin),
) -> Result<(), Ending>
where
    A::Origin: Copy,
    B::Origin: Copy,
{
    let refusing: OverStores<A, B> = set_out(origins);
    serve_desks(rt, memory, plain, refusing)
}

// Serves the lines of standard input on two desks, the first one over four kinds of stores, and the second one over stores from these origins.
fn serve_stores<
    A: ClearNodes<u64, u64, Origin = Global> + Drop,
    B: ClearNodes<u64, Span<u64>, Origin = Global> + Drop,
    C: ClearNodes<u64, u64, Origin = ()> + Drop,
    D: ClearNodes<u64, Span<u64>, Origin = ()> + Drop,
    E: ClearNodes<u64, u64, Origin = Global> + Drop,
    F: ClearNodes<u64, Span<u64>, Origin = Global> + Drop,
    G: Gated + Drop,
    H: Gated + Drop,
    I: ClearNodes<u64, u64> + Drop,
    J: ClearNodes<u64, Span<u64>> + Drop,
>(
    rt: &(impl Print + Input + AllocGlobal),
    memory: &Refusing<Global>,
    origins: (I::Origin, J::Origin),
) -> Result<(), Ending>
where
    I::Origin: Copy,
    J::Origin: Copy,
{
    let plain: FourPairs<A, B, C, D, E, F, G, H> = open_stores(rt.alloc());
    serve_refusing::<_, I, J>(rt, memory, plain, origins)
}

fn run(rt: &(impl Env + Input + Print + AllocGlobal)) -> Result<(), Ending> {
    check_arguments(rt)?;
    let memory = Refusing::over(rt.alloc(), 0);
    let origin = (&memory, &memory);
    serve_stores::<
        SlabStore<SetNode>,
        SlabStore<MapNode>,
        FixedSlab<SetNode, 2>,
        FixedSlab<MapNode, 2>,
        OddSlab<SetNode>,
        OddSlab<MapNode>,
        RangeSet<Gate<SlabStore<SetNode>>>,
        RangeMap<u64, Gate<SlabStore<MapNode>>>,
        RefusingStore<'_, SlabStore<SetNode, &Refusing<Global>>>,
        RefusingStore<'_, SlabStore<MapNode, &Refusing<Global>>>,
    >(rt, &memory, (origin, origin))
}

fn main(rt: HostRuntime) -> ExitCode {
    let Err(ending) = run(&rt) else {
        return ExitCode::SUCCESS;
    };
    // If standard error fails too, the status alone shows how the run ended.
    let _ = rt.eprintln(ending);
    ExitCode::from(ending.status())
}
