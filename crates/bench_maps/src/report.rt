//! The lines about phases.
use std::alloc::AllocError;
use std::io;
use std::time::{Clock, Instant};

/// Prints a line about each phase. The first error ends the report, and is kept.
#[derive(Drop)]
pub struct Report {
    is_timed: bool,
    since: Option<Instant>,
    outcome: io::Result<()>,
}

impl Report {
    /// Returns a report without a line. It prints times if `is_timed`.
    pub fn new(is_timed: bool) -> Report {
        Report {
            is_timed,
            since: None,
            outcome: Ok(()),
        }
    }

    // Keeps an error, if it is the first one.
    fn fail(&mut self, error: io::Error) {
        if self.outcome.is_ok() {
            self.outcome = Err(error);
        }
    }

    /// Begins a phase.
    pub fn begin(&mut self, rt: &impl Clock) {
        match Instant::now(rt) {
            Ok(since) => self.since = Some(since),
            Err(error) => self.fail(error),
        }
    }

    // Prints the line about a phase that ends now.
    fn show(
        &self,
        rt: &(impl Print + Clock),
        (map, phase): (&str, &str),
        sum: Result<u64, AllocError>,
    ) -> io::Result<()> {
        let nanos = match self.since {
            Some(since) => since.elapsed(rt)?.as_nanos(),
            None => 0,
        };
        let sum = sum?;
        if self.is_timed {
            rt.println(format_args!("{map}.{phase} {nanos} {sum}"))
        } else {
            rt.println(format_args!("{map}.{phase} {sum}"))
        }
    }

    /// Ends a phase, with what it came to.
    pub fn end(
        &mut self,
        rt: &(impl Print + Clock),
        name: (&str, &str),
        sum: Result<u64, AllocError>,
    ) {
        if self.outcome.is_ok() {
            self.outcome = self.show(rt, name, sum);
        }
    }

    /// Notes what was done before a phase.
    pub fn note(&mut self, done: Result<u64, AllocError>) {
        if let Err(error) = done {
            self.fail(error.into());
        }
    }

    /// Returns the first error, if there was one.
    pub fn into_outcome(self) -> io::Result<()> {
        let Report {
            is_timed: _,
            since: _,
            outcome,
        } = self;
        outcome
    }
}
