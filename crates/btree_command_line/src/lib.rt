//! The program `btree_script`, all but its `main`: its arguments, the replies to the lines of a reader, and how a run ends. `Env` does not
//! say what the arguments are, so the clauses are met by some arguments; that they are those given is only tested.
#![tactic(auto)]

ghost use Rattle.std.specs.Prelude.{◌≡◌, ◌⊎◌, Err, Some, IfNone, IfSome, IsFalse, IsTrue};
ghost use Rattle.std.specs.Io.{WritesAtMost};
ghost use Rattle.std.specs.Process.{exit_status};
ghost use Rattle.btree_command_line.specs.Ending.{status_after, status_of, text_of};
ghost use Rattle.btree_command_line.specs.Serving.{ReportsRun, ServesAnew, ServesArguments, ServesAsked, ServesSlab, ServesTable};
ghost use Rattle.btree_command_line.specs.Words.{ReadsWord};
ghost use Rattle.btree_command_line.specs.declared.Ending.TheVariants.{WrongArguments};

use btree_more_stores::FixedSlab;
use btree_node::{ClearNodes, Node};
use btree_session::{Session, Setup, Stop, drive, setup};
use btree_store::SlabStore;
use std::alloc::Global;
use std::env::FillError;
use std::io::{Read, Write};
use std::process::ExitCode;
use std::rt::Env;
use std::{fmt, str};

// The most bytes of an argument that is read.
const LONGEST_WORD: usize = 1_024;

// How many nodes a table has places for.
const TABLE_NODES: usize = 11;

/// How a run ended that did not reach the end of its input.
#[derive(Clone, Copy, Debug, PartialEq, Eq)]
pub enum Ending {
    /// There were arguments that the program does not have.
    WrongArguments,
    /// A line or a failure stopped it.
    Stopped(Stop),
}

impl Ending {
    /// Returns the exit status. It is never 0, the status of a run that reached the end.
    pub fn status(self) -> u8
        ensures { result ≡ status_of self }
    {
        match self {
            Ending::WrongArguments | Ending::Stopped(Stop::NotACommand(_)) => 1,
            Ending::Stopped(Stop::Memory) => 2,
            Ending::Stopped(Stop::Input | Stop::Output) => 3,
        }
    }
}

impl fmt::Display for Ending {
    ghost output = { λ ending. Some (text_of ending) };

    fn fmt<W: fmt::Write>(&self, f: &mut fmt::Formatter<W>) -> fmt::Result {
        match self {
            Ending::WrongArguments => write!(f, "usage: btree_script [table] [limit n]"),
            Ending::Stopped(Stop::NotACommand(number)) => {
                write!(f, "line {number}: not a command")
            }
            Ending::Stopped(Stop::Memory) => write!(f, "out of memory"),
            Ending::Stopped(Stop::Input) => write!(f, "input failed"),
            Ending::Stopped(Stop::Output) => write!(f, "output failed"),
        }
    }
}

// Returns the argument with this number, if there is one. It returns `None` for one that it cannot read.
fn read_word<'a>(rt: &impl Env, index: usize, buffer: &'a mut [u8]) -> Option<Option<&'a str>> {
    let filled = rt.arg(index, buffer);
    word_in(filled, buffer)
}

// Returns the argument that a buffer was filled with, if there is one. It returns `None` for one that is too long, or no text.
fn word_in<'a>(filled: Result<usize, FillError>, buffer: &'a [u8]) -> Option<Option<&'a str>>
    requires { WritesAtMost filled buffer.now }
    ensures { ReadsWord filled buffer.now result }
{
    match filled {
        Ok(len) => {
            let (bytes, _) = buffer.split_at(len);
            match str::from_utf8(bytes) {
                Ok(word) => Some(Some(word)),
                Err(_) => None,
            }
        }
        Err(FillError::NotPresent) => Some(None),
        Err(FillError::TooLong) => None,
    }
}

/// Returns what the arguments ask for, if it can read them: each has at most 1,024 bytes.
pub fn read_arguments(rt: &impl Env) -> Option<Setup> {
    let (mut first, mut second, mut third) = (
        [0; LONGEST_WORD],
        [0; LONGEST_WORD],
        [0; LONGEST_WORD],
    );
    let Some(first) = read_word(rt, 1, &mut first)? else {
        return setup(&[]);
    };
    let Some(second) = read_word(rt, 2, &mut second)? else {
        return setup(&[first]);
    };
    let Some(third) = read_word(rt, 3, &mut third)? else {
        return setup(&[first, second]);
    };
    let Err(FillError::NotPresent) = rt.arg(4, &mut []) else {
        return None;
    };
    setup(&[first, second, third])
}

// Serves the lines of a reader with this limit, over a store from this origin.
fn serve<C: ClearNodes<u64, u64> + Drop, R: Read, W: Write>(
    origin: C::Origin,
    limit: usize,
    alloc: Global,
    input: &mut R,
    output: &mut W,
) -> Result<(), Stop>
    ensures { ServesAnew limit C.MayRefuse R.remaining W.contents
        input.old output.old result output.new }
{
    let mut session: Session<C> = Session::with_limit(origin, limit);
    drive(alloc, &mut session, input, output)
}

// Serves the lines of a reader with the limit that was asked for, over a table if that was asked for.
fn serve_asked<R: Read, W: Write>(
    asked: Setup,
    alloc: Global,
    input: &mut R,
    output: &mut W,
) -> Result<(), Stop>
    ensures table { IsTrue asked.table → ServesTable asked.limit R.remaining W.contents
        input.old output.old result output.new }
    ensures slab { IsFalse asked.table → ServesSlab asked.limit R.remaining W.contents
        input.old output.old result output.new }
{
    if asked.table {
        serve::<FixedSlab<Node<u64, u64>, TABLE_NODES>, R, W>((), asked.limit, alloc, input, output)
    } else {
        serve::<SlabStore<Node<u64, u64>>, R, W>(alloc, asked.limit, alloc, input, output)
    }
}

// Serves the lines of a reader as was asked for, if that could be read.
fn run_asked<R: Read, W: Write>(
    asked: Option<Setup>,
    alloc: Global,
    input: &mut R,
    output: &mut W,
) -> Result<(), Ending>
    ensures refused { IfNone asked (result ≡ Err WrongArguments) }
    ensures serves { IfSome asked (λ setup. ServesAsked setup R.remaining W.contents
        input.old output.old result output.new) }
{
    let Some(setup) = asked else {
        return Err(Ending::WrongArguments);
    };
    match serve_asked(setup, alloc, input, output) {
        Ok(()) => return Ok(()),
        Err(stop) => return Err(Ending::Stopped(stop)),
    }
}

/// Serves the lines of a reader as the arguments ask.
pub fn run<R: Read, W: Write>(
    arguments: &impl Env,
    alloc: Global,
    input: &mut R,
    output: &mut W,
) -> Result<(), Ending>
    ensures { ServesArguments R.remaining W.contents input.old output.old result output.new }
{
    run_asked(read_arguments(arguments), alloc, input, output)
}

/// Prints how a run ended on standard error, unless it reached the end of its input, and returns its exit code.
pub fn report(rt: &impl Eprint, end: Result<(), Ending>) -> ExitCode
    ensures { exit_status result ≡ status_after end }
{
    let Err(ending) = end else {
        return ExitCode::SUCCESS;
    };
    // If standard error fails too, the status alone shows how the run ended.
    let _ = rt.eprintln(ending);
    ExitCode::from(ending.status())
}

/// Serves the lines of a reader as the arguments ask, prints how that ended, and returns the exit code.
pub fn run_and_report<R: Read, W: Write>(
    rt: &(impl Env + Eprint),
    alloc: Global,
    input: &mut R,
    output: &mut W,
) -> ExitCode
    ensures { ReportsRun R.remaining W.contents
        input.old output.old (exit_status result) output.new }
{
    let end = run(rt, alloc, input, output);
    report(rt, end)
}
