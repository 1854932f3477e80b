//! The program's arguments, its whole runs, and what it prints at their ends.
ghost use Rattle.std.specs.Io.{WritesAtMost};

use crate::asserts::{assert_same, assert_same_in};
use btree_command_line::{Ending, read_arguments, report, run, run_and_report};
use btree_session::{Setup, Stop, setup};
use std::alloc::Global;
use std::cell::Cell;
use std::env::{Env, FillError};
use std::fmt::Display;
use std::process::Abort;
use std::test::Fail;
use std::{io, str};

// A program's name, the arguments after it, and perhaps one more, which may be no text.
#[derive(Drop)]
struct Words<'a> {
    words: &'a [&'a str],
    last: Option<&'a [u8]>,
}

fn only<'a>(words: &'a [&'a str]) -> Words<'a> {
    Words { words, last: None }
}

// Copies a word to the start of a buffer.
fn fill(word: &[u8], buf: &mut [u8]) -> Result<usize, FillError>
    ensures { WritesAtMost result buf.new }
{
    let Some(place) = buf.get_mut(..word.len()) else {
        return Err(FillError::TooLong);
    };
    place.copy_from_slice(word);
    Ok(word.len())
}

impl Env for Words<'_> {
    fn arg(&self, i: usize, buf: &mut [u8]) -> Result<usize, FillError> {
        if let Some(word) = self.words.get(i) {
            return fill(word.as_bytes(), buf);
        }
        match self.last {
            Some(bytes) if i == self.words.len() => fill(bytes, buf),
            _ => Err(FillError::NotPresent),
        }
    }

    fn var(&self, _name: &str, _buf: &mut [u8]) -> Result<usize, FillError> {
        Err(FillError::NotPresent)
    }

    fn var_at(&self, _i: usize, _buf: &mut [u8]) -> Result<usize, FillError> {
        Err(FillError::NotPresent)
    }
}

// Arguments, and a standard error that counts how often a line is printed, and how often something else is.
#[derive(Drop)]
struct System<'a> {
    words: Words<'a>,
    line: &'a str,
    lines: Cell<usize>,
    others: Cell<usize>,
    alloc: Global,
}

fn given<'a>(words: &'a [&'a str], line: &'a str, alloc: Global) -> System<'a> {
    let words = only(words);
    System {
        words,
        line,
        lines: Cell::new(0),
        others: Cell::new(0),
        alloc,
    }
}

impl Env for System<'_> {
    fn arg(&self, i: usize, buf: &mut [u8]) -> Result<usize, FillError> {
        self.words.arg(i, buf)
    }

    fn var(&self, _name: &str, _buf: &mut [u8]) -> Result<usize, FillError> {
        Err(FillError::NotPresent)
    }

    fn var_at(&self, _i: usize, _buf: &mut [u8]) -> Result<usize, FillError> {
        Err(FillError::NotPresent)
    }
}

impl io::Eprint for System<'_> {
    fn eprint<D: Display + Drop>(&self, _value: D) -> io::Result<()> {
        self.others.set(self.others.get().saturating_add(1));
        Ok(())
    }

    fn eprintln<D: Display + Drop>(&self, value: D) -> io::Result<()> {
        let mut text = String::new(self.alloc);
        let is_line = write!(text, "{value}").is_ok() && text.as_str() == self.line;
        let count = if is_line { &self.lines } else { &self.others };
        count.set(count.get().saturating_add(1));
        Ok(())
    }
}

fn asked(words: &[&str]) -> Option<Setup> {
    read_arguments(&only(words))
}

// Checks that arguments ask for a slab or a table, with a limit.
fn check_asked(rt: &impl Abort, words: &[&str], table: bool, limit: usize) {
    assert_same_in(rt, words.len(), asked(words), Some(Setup { table, limit }));
}

#[test]
fn takes_a_table_and_a_limit(rt: HostRuntime) {
    for (words, table, limit) in [
        (["btree_script"].as_slice(), false, usize::MAX),
        (&["btree_script", "table"], true, usize::MAX),
        (&["btree_script", "limit", "2"], false, 2),
        (&["btree_script", "table", "limit", "20"], true, 20),
        (
            &["btree_script", "limit", "018446744073709551615"],
            false,
            18446744073709551615,
        ),
    ] {
        check_asked(&rt, words, table, limit);
    }
}

#[test]
fn takes_no_other_arguments(rt: HostRuntime) {
    for words in [
        ["btree_script", "tables"].as_slice(),
        &["btree_script", "tabl"],
        &["btree_script", "Table"],
        &["btree_script", ""],
        &["btree_script", "table", ""],
        &["btree_script", "", "table"],
        &["btree_script", "table", "table"],
        &["btree_script", "-", "commands.txt"],
        &["btree_script", "limit"],
        &["btree_script", "limit", "two"],
        &["btree_script", "limit", "2", ""],
        &["btree_script", "limit", "2", "table"],
        &["btree_script", "table", "limit"],
        &["btree_script", "table", "limit", "2", "2"],
    ] {
        assert_same(&rt, asked(words), None);
    }
}

#[test]
fn takes_no_long_argument(rt: HostRuntime) {
    let bytes = [b't'; 1_025];
    let Ok(word) = str::from_utf8(&bytes) else {
        panic!(rt; "no text")
    };
    assert_same(&rt, asked(&["btree_script", word]), None);
    assert_same(&rt, asked(&["btree_script", "table", word]), None);
    assert_same(&rt, asked(&["btree_script", "limit", word]), None);
}

#[test]
fn takes_a_number_of_1024_digits(rt: HostRuntime) {
    let mut bytes = [b'0'; 1_024];
    bytes[1_023] = b'7';
    let Ok(word) = str::from_utf8(&bytes) else {
        panic!(rt; "no text")
    };
    check_asked(&rt, &["btree_script", "limit", word], false, 7);
    check_asked(&rt, &["btree_script", "table", "limit", word], true, 7);
}

#[test]
fn takes_no_bytes_that_are_no_text(rt: HostRuntime) {
    for words in [
        ["btree_script"].as_slice(),
        &["btree_script", "table"],
        &["btree_script", "limit"],
        &["btree_script", "limit", "2"],
        &["btree_script", "table", "limit"],
        &["btree_script", "table", "limit", "2"],
    ] {
        let last = Some(b"\xff".as_slice());
        assert_same(&rt, read_arguments(&Words { words, last }), None);
    }
}

#[test]
fn only_a_table_and_a_limit_are_a_setup(rt: HostRuntime) {
    for (words, table, limit) in [
        ([].as_slice(), false, usize::MAX),
        (&["table"], true, usize::MAX),
        (&["limit", "0"], false, 0),
        (
            &["table", "limit", "18446744073709551615"],
            true,
            usize::MAX,
        ),
    ] {
        assert_same(&rt, setup(words), Some(Setup { table, limit }));
    }
    for words in [
        ["tables"].as_slice(),
        &["tabl"],
        &[""],
        &["table", "table"],
        &["table", ""],
        &["limit"],
        &["limit", ""],
        &["limit", "-1"],
        &["limit", "18446744073709551616"],
        &["limits", "2"],
        &["limit", "2", "table"],
        &["limit", "2", "limit", "2"],
        &["table", "limit"],
        &["table", "2"],
        &["table", "limit", "2", "3"],
    ] {
        assert_same(&rt, setup(words), None);
    }
}

#[test]
fn says_which_arguments_there_are(rt: HostRuntime) -> Result<(), Fail> {
    let ending = Ending::WrongArguments;
    let mut text = String::new(rt.alloc());
    write!(text, "{ending}")?;
    assert_same(&rt, text.as_str(), "usage: btree_script [table] [limit n]");
    assert_same(&rt, ending.status(), 1);
    Ok(())
}

// Inserts the keys from 0 to 43 in a run with these arguments, of which as many as given are taken, and asks for the rest.
fn check_run(
    rt: &impl Abort,
    words: &[&str],
    taken: usize,
    rest: &str,
    alloc: Global,
) -> Result<(), Fail> {
    let (mut lines, mut replies) = (String::new(alloc), String::new(alloc));
    for key in 0..44 {
        write!(lines, "insert {key} {key}\n")?;
    }
    lines.push_str("nodes\nlen\n")?;
    for _ in 0..taken {
        replies.push_str("none\n")?;
    }
    replies.push_str(rest)?;
    let (mut input, mut output) = (lines.as_bytes(), Vec::new(alloc));
    let end = run(&only(words), alloc, &mut input, &mut output);
    assert_same(rt, end, Ok(()));
    assert_same(rt, output.as_slice(), replies.as_bytes());
    Ok(())
}

// A table refuses the last key, which needs three nodes beside the nine that are there.
#[test]
fn serves_a_table_if_asked(rt: HostRuntime) -> Result<(), Fail> {
    let alloc = rt.alloc();
    check_run(
        &rt,
        &["btree_script", "table"],
        43,
        "refused store\n9\n43\n",
        alloc,
    )?;
    check_run(&rt, &["btree_script"], 44, "12\n44\n", alloc)
}

// Compares the replies to these lines, in a run with these arguments.
fn check_lines(rt: &impl Abort, words: &[&str], lines: &str, replies: &str, alloc: Global) {
    let (mut input, mut output) = (lines.as_bytes(), Vec::new(alloc));
    let end = run(&only(words), alloc, &mut input, &mut output);
    assert_same(rt, end, Ok(()));
    assert_same(rt, output.as_slice(), replies.as_bytes());
}

#[test]
fn refuses_an_absent_key_at_the_limit(rt: HostRuntime) {
    check_lines(
        &rt,
        &["btree_script", "limit", "2"],
        "insert 1 10\ninsert 2 20\ninsert 3 30\ninsert 2 21\nseek 3\nput 3 30\nremove 1\ninsert 3 30\n",
        "none\nnone\nrefused count\nsome 20\ngap\nrefused count\nsome 10\nnone\n",
        rt.alloc(),
    );
    check_lines(
        &rt,
        &["btree_script", "limit", "0"],
        "insert 1 10\nseek 1\nput 1 10\nlen\n",
        "refused count\ngap\nrefused count\n0\n",
        rt.alloc(),
    );
}

// How a run over a line that is no command ends, and one with arguments that the program does not have.
#[test]
fn says_how_a_run_ended(rt: HostRuntime) {
    for (words, end, replies) in [
        (
            ["btree_script"].as_slice(),
            Ending::Stopped(Stop::NotACommand(2)),
            b"none\n".as_slice(),
        ),
        (&["btree_script", "tables"], Ending::WrongArguments, b""),
    ] {
        let (mut input, mut output) = (b"insert 1 10\njump\n".as_slice(), Vec::new(rt.alloc()));
        let found = run(&only(words), rt.alloc(), &mut input, &mut output);
        assert_same(&rt, found, Err(end));
        assert_same(&rt, output.as_slice(), replies);
    }
}

// The limit is asked before the table, which has no node left for key 43.
#[test]
fn a_table_with_a_limit_refuses_by_the_first_that_is_met(rt: HostRuntime) -> Result<(), Fail> {
    let alloc = rt.alloc();
    check_run(
        &rt,
        &["btree_script", "table", "limit", "43"],
        43,
        "refused count\n9\n43\n",
        alloc,
    )?;
    check_run(
        &rt,
        &["btree_script", "table", "limit", "44"],
        43,
        "refused store\n9\n43\n",
        alloc,
    )
}

// Inserts one key more than this limit, and asks for the number of pairs.
fn check_limit(rt: &impl Abort, limit: u64, alloc: Global) -> Result<(), Fail> {
    let (mut lines, mut replies) = (String::new(alloc), String::new(alloc));
    for key in 0..limit {
        write!(lines, "insert {key} {key}\n")?;
        replies.push_str("none\n")?;
    }
    write!(lines, "insert {limit} {limit}\nlen\n")?;
    write!(replies, "refused count\n{limit}\n")?;
    let mut number = String::new(alloc);
    write!(number, "{limit}")?;
    check_lines(
        rt,
        &["btree_script", "limit", number.as_str()],
        lines.as_str(),
        replies.as_str(),
        alloc,
    );
    check_lines(
        rt,
        &["btree_script", "table", "limit", number.as_str()],
        lines.as_str(),
        replies.as_str(),
        alloc,
    );
    Ok(())
}

#[test]
fn each_limit_is_the_one_that_was_asked_for(rt: HostRuntime) -> Result<(), Fail> {
    for limit in 0..24 {
        check_limit(&rt, limit, rt.alloc())?;
    }
    Ok(())
}

// Reports how a run ended, and compares how often the line is printed; nothing else is.
fn check_report(rt: &impl Abort, end: Result<(), Ending>, line: &str, lines: usize, alloc: Global) {
    let system = given(&[], line, alloc);
    let _ = report(&system, end);
    assert_same_in(
        rt,
        line,
        (system.lines.get(), system.others.get()),
        (lines, 0),
    );
}

#[test]
fn each_ending_prints_its_line(rt: HostRuntime) {
    check_report(&rt, Ok(()), "", 0, rt.alloc());
    for (ending, line) in [
        (
            Ending::WrongArguments,
            "usage: btree_script [table] [limit n]",
        ),
        (
            Ending::Stopped(Stop::NotACommand(1)),
            "line 1: not a command",
        ),
        (
            Ending::Stopped(Stop::NotACommand(18446744073709551614)),
            "line 18446744073709551614: not a command",
        ),
        (Ending::Stopped(Stop::Memory), "out of memory"),
        (Ending::Stopped(Stop::Input), "input failed"),
        (Ending::Stopped(Stop::Output), "output failed"),
    ] {
        check_report(&rt, Err(ending), line, 1, rt.alloc());
    }
}

// Serves lines, compares the replies, and how often the line is printed on standard error.
fn check_whole_run(
    rt: &impl Abort,
    words: &[&str],
    lines: &[u8],
    replies: &[u8],
    (line, count): (&str, usize),
    alloc: Global,
) {
    let system = given(words, line, alloc);
    let (mut input, mut output) = (lines, Vec::new(alloc));
    let _ = run_and_report(&system, alloc, &mut input, &mut output);
    assert_same(rt, output.as_slice(), replies);
    assert_same_in(
        rt,
        line,
        (system.lines.get(), system.others.get()),
        (count, 0),
    );
}

#[test]
fn a_whole_run_serves_and_reports(rt: HostRuntime) {
    let asked = ["btree_script", "limit", "1"].as_slice();
    let usage = "usage: btree_script [table] [limit n]";
    for (words, lines, replies, printed) in [
        (
            asked,
            b"insert 1 10\ninsert 2 20\n".as_slice(),
            b"none\nrefused count\n".as_slice(),
            ("", 0),
        ),
        (
            asked,
            b"get 1\njump\n",
            b"none\n",
            ("line 2: not a command", 1),
        ),
        (&["btree_script", "tables"], b"get 1\n", b"", (usage, 1)),
    ] {
        check_whole_run(&rt, words, lines, replies, printed, rt.alloc());
    }
}
