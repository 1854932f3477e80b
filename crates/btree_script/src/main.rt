//! Reads commands from standard input, one a line, and prints a reply to each. With the argument `table`, the nodes of its map are in a
//! table of fixed size; with `limit n` the map has at most n pairs.
#![tactic(auto)]

use btree_command_line::run_and_report;
use std::io;
use std::process::ExitCode;

fn main(rt: HostRuntime) -> ExitCode {
    let (mut input, mut output) = (rt.reader(), io::writer(&rt));
    run_and_report(&rt, rt.alloc(), &mut input, &mut output)
}
