//! Readers and writers over memory that fail.
use std::cell::Cell;
use std::io;
use std::io::{ErrorKind, Read, Write};

/// The result of one read.
#[derive(Clone, Copy)]
pub(crate) enum Piece<'a> {
    Bytes(&'a [u8]),
    Fails(ErrorKind),
}

/// Gives one piece at each read, and records how many bytes had been flushed at each.
#[derive(Drop)]
pub(crate) struct Pieces<'a> {
    pub pieces: &'a [Piece<'a>],
    pub next: usize,
    pub flushed: &'a Cell<usize>,
    pub seen: Vec<usize>,
}

impl Read for Pieces<'_> {
    fn read(&mut self, buf: &mut [u8]) -> io::Result<usize> {
        self.seen.push(self.flushed.get())?;
        let at = self.next;
        self.next = at.saturating_add(1);
        match self.pieces.get(at).copied() {
            Some(Piece::Bytes(bytes)) => {
                let mut left = bytes;
                left.read(buf)
            }
            Some(Piece::Fails(kind)) => Err(io::Error::from(kind)),
            None => Ok(0),
        }
    }
}

/// Accepts at most three bytes at each write, counts what is flushed, and fails after a given number of bytes, or at each flush.
#[derive(Drop)]
pub(crate) struct Slow<'a> {
    pub written: Vec<u8>,
    pub flushed: &'a Cell<usize>,
    pub most: usize,
    pub flushes: bool,
}

impl Write for Slow<'_> {
    fn write(&mut self, buf: &[u8]) -> io::Result<usize> {
        if self.written.len() >= self.most {
            return Err(io::Error::from(ErrorKind::BrokenPipe));
        }
        let len = buf.len().min(3);
        let (front, _) = buf.split_at(len);
        self.written.extend_from_slice(front)?;
        Ok(len)
    }

    fn flush(&mut self) -> io::Result<()> {
        if !self.flushes {
            return Err(io::Error::from(ErrorKind::Other));
        }
        self.flushed.set(self.written.len());
        Ok(())
    }
}
