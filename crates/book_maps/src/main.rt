//! Calls of maps and sets, one a line: a book of rows, and a way to look at the library from the keyboard.
#![tactic(auto)]

mod desk;
mod help;
mod in_turn;
mod loops;
mod merges;
mod set_queries;
mod sets;

use crate::desk::serve_stores;
use book_text::Ending;
use btree_node::Node;
use btree_store::SlabStore;
use std::alloc::Global;
use std::env::FillError;
use std::process::ExitCode;
use std::rt::Env;
use test_support::{Refusing, RefusingStore};

// Takes no arguments; one that cannot be read is an argument too.
fn check_arguments(rt: &impl Env) -> Result<(), Ending> {
    match rt.arg(1, &mut []) {
        Err(FillError::NotPresent) => Ok(()),
        _ => Err(Ending::WrongArguments),
    }
}

fn run(rt: &(impl Env + Input + Print + AllocGlobal)) -> Result<(), Ending> {
    check_arguments(rt)?;
    let memory = Refusing::over(rt.alloc(), 0);
    serve_stores::<
        SlabStore<Node<u64, u64>>,
        SlabStore<Node<u64, ()>>,
        RefusingStore<'_, SlabStore<Node<u64, u64>, &Refusing<Global>>>,
        RefusingStore<'_, SlabStore<Node<u64, ()>, &Refusing<Global>>>,
    >(
        rt,
        &memory,
        (rt.alloc(), rt.alloc()),
        ((&memory, &memory), (&memory, &memory)),
    )
}

fn main(rt: HostRuntime) -> ExitCode {
    let Err(ending) = run(&rt) else {
        return ExitCode::SUCCESS;
    };
    // If standard error fails too, the status alone shows how the run ended.
    let _ = rt.eprintln(ending);
    ExitCode::from(ending.status())
}
