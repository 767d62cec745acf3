//! Readers and writers that end, fail and take bytes as a test wants, and count their calls.
ghost use Rattle.std.specs.Prelude.{◌≤◌, length, IfOk};

use std::io::{Error, ErrorKind, Read, Write};

/// What a reader does after its last byte.
#[derive(Clone, Copy)]
pub enum After {
    End,
    Fails,
    NewlinesForEver,
}

/// Reads one byte a call, and after the last one does as `after` wants. It counts the calls, and keeps the length of the shortest buffer.
#[derive(Drop)]
pub struct Trickle<'a> {
    pub text: &'a [u8],
    pub after: After,
    pub calls: u32,
    pub shortest: usize,
}

impl Trickle<'_> {
    pub fn new(text: &[u8], after: After) -> Trickle<'_> {
        Trickle {
            text,
            after,
            calls: 0,
            shortest: usize::MAX,
        }
    }
}

impl Read for Trickle<'_> {
    fn read(&mut self, buf: &mut [u8]) -> std::io::Result<usize> {
        self.calls = self.calls.saturating_add(1);
        self.shortest = self.shortest.min(buf.len());
        if buf.is_empty() {
            return Ok(0);
        }
        match (self.text, self.after) {
            ([first, rest @ ..], _) => {
                buf[0] = *first;
                self.text = rest;
                Ok(1)
            }
            ([], After::End) => Ok(0),
            ([], After::Fails) => Err(Error::new(ErrorKind::Other, "told to fail")),
            ([], After::NewlinesForEver) => {
                buf[0] = b'\n';
                Ok(1)
            }
        }
    }
}

/// What a writer does.
#[derive(Clone, Copy)]
pub enum Manner {
    TakesAtMost(usize),
    FailsPast(usize),
    TakesNone,
    Interrupted,
    FlushFails,
}

/// Keeps what it takes, up to 4096 bytes, without allocating, and counts its calls.
#[derive(Drop)]
pub struct Sink {
    kept: [u8; 4096],
    len: usize,
    manner: Manner,
    pub writes: u32,
    pub flushes: u32,
    ghost within: { len ≤ 4096 },
}

impl Sink {
    pub fn new(manner: Manner) -> Sink {
        Sink {
            kept: [0; 4096],
            len: 0,
            manner,
            writes: 0,
            flushes: 0,
        }
    }

    pub fn bytes(&self) -> &[u8] {
        &self.kept[..self.len]
    }

    fn keep(&mut self, buf: &[u8], most: usize) -> std::io::Result<usize>
        ensures { IfOk result (λ n. n ≤ length buf.now) }
    {
        let mut taken = 0;
        for byte in buf {
            if taken >= most || self.len >= 4096 {
                break;
            }
            self.kept[self.len] = *byte;
            self.len += 1;
            taken += 1;
        }
        Ok(taken.min(buf.len()))
    }
}

impl Write for Sink {
    fn write(&mut self, buf: &[u8]) -> std::io::Result<usize> {
        self.writes = self.writes.saturating_add(1);
        match self.manner {
            Manner::TakesAtMost(most) => self.keep(buf, most),
            Manner::FailsPast(limit) => {
                if self.len >= limit {
                    return Err(Error::new(ErrorKind::Other, "told to fail"));
                }
                let room = limit - self.len;
                self.keep(buf, room)
            }
            Manner::TakesNone => Ok(0),
            Manner::Interrupted => {
                if self.writes == 1 {
                    return Err(Error::new(ErrorKind::Interrupted, "interrupted"));
                }
                self.keep(buf, 4096)
            }
            Manner::FlushFails => self.keep(buf, 4096),
        }
    }

    fn flush(&mut self) -> std::io::Result<()> {
        self.flushes = self.flushes.saturating_add(1);
        match self.manner {
            Manner::FlushFails => Err(Error::new(ErrorKind::Other, "told to fail")),
            _ => Ok(()),
        }
    }
}
