// The files of the system, standard output and standard error. They tell no content.
ghost use Rattle.std.specs.Prelude.{◌≡◌, [], None, false};
ghost use Rattle.std.specs.Option.{option_map};
ghost use Rattle.std.proofs.Common.{rules};
ghost use Rattle.host_io.specs.Told.{name_in, failures_in};

use crate::told::CallRecord;
use crate::{Failed, Files, Sink};
use std::io::{self, ErrorKind, Read};
use std::sync::Wait;
use std::{fs, rt, thread};

// Whether a call that failed so is made again: a signal interrupted it, or the stream, which doesn't wait by itself, has no byte
// or no room yet.
fn is_passing(error: &io::Error) -> bool {
    matches!(error.kind(), ErrorKind::Interrupted | ErrorKind::WouldBlock)
}

// A file of the system, whose opening is made again where that passes.
fn opened<R: rt::Files + Wait>(rt: &R, name: &str) -> Option<R::File> {
    for _ in rt.forever() {
        match fs::open(rt, name) {
            Ok(file) => return Some(file),
            Err(error) if is_passing(&error) => thread::yield_now(),
            Err(_) => return None,
        }
    }
    None
}

/// The files of the system, through the runtime. A name is a path. They tell no texts and aren't steady, but
/// the names of those that failed. Each error of
/// the system is a fault, and stands for no more than that, but for a call that a signal interrupted or that would
/// wait: it is made again, behind a turn of other threads. So where a stream never has a byte, no read returns.
#[derive(Drop)]
pub struct RealFiles<'r, R: rt::Files + Wait> {
    rt: &'r R,
    opened: Option<R::File>,
    told: CallRecord,
    faults: u64,
}

impl<'r, R: rt::Files + Wait> RealFiles<'r, R> {
    /// Files with no text open and no fault.
    pub fn new(rt: &'r R) -> RealFiles<'r, R>
        ensures { ⟦<RealFiles<'r, R> as Files>⟧.faults result ≡ record { count = 0; names = [] } }
    {
        RealFiles {
            rt,
            opened: None,
            told: CallRecord::new(),
            faults: 0,
        }
    }
}

impl<'r, R: rt::Files + Wait> Files for RealFiles<'r, R> {
    ghost texts = { λ s. None };

    ghost left = { λ s. None };

    ghost opened = { λ s. option_map (λ f. name_in s.told) s.opened };

    ghost faults = { λ s. record { count = s.faults; names = failures_in s.told } };

    ghost steady = { λ s. false };

    ghost tells = { λ s h. Prim.search rules };

    fn open(&mut self, name: &str) -> Result<(), Failed> {
        // So that no two are open at a time.
        self.opened = None;
        match opened(self.rt, name) {
            Some(file) => {
                self.opened = Some(file);
                self.told.opens(name);
                Ok(())
            }
            None => {
                self.told.open_fails(name);
                self.faults = self.faults.saturating_add(1);
                Err(Failed)
            }
        }
    }

    fn read(&mut self, into: &mut [u8]) -> Result<usize, Failed> {
        let Some(file) = &mut self.opened else {
            unreachable!()
        };
        for _ in self.rt.forever() {
            match file.read(into) {
                Ok(count) => return Ok(count),
                Err(error) if is_passing(&error) => thread::yield_now(),
                Err(_) => break,
            }
        }
        self.told.read_fails();
        self.faults = self.faults.saturating_add(1);
        Err(Failed)
    }
}

/// Standard output, through the runtime. It tells no bytes. An error of the system is a fault, and so is a write that
/// takes nothing; a write that a signal interrupted or that would wait is made again, behind a turn of other threads. So
/// where a stream never has room, no write returns.
#[derive(Drop)]
pub struct RealOut<'r, R: Print + Wait> {
    rt: &'r R,
    faults: u64,
}

impl<'r, R: Print + Wait> RealOut<'r, R> {
    /// Standard output with no fault.
    pub fn new(rt: &'r R) -> RealOut<'r, R>
        ensures { ⟦<RealOut<'r, R> as Sink>⟧.faults result ≡ 0 }
    {
        RealOut { rt, faults: 0 }
    }
}

impl<'r, R: Print + Wait> Sink for RealOut<'r, R> {
    ghost written = { λ s. None };

    ghost faults = { λ s. s.faults };

    fn write(&mut self, piece: &[u8]) -> Result<usize, Failed> {
        for _ in self.rt.forever() {
            match self.rt.write_some(piece) {
                Ok(count) if count > 0 => return Ok(count),
                Err(error) if is_passing(&error) => thread::yield_now(),
                _ => break,
            }
        }
        self.faults = self.faults.saturating_add(1);
        Err(Failed)
    }
}

/// Standard error, through the runtime. It tells no bytes. An error of the system is a fault, and so is a piece that
/// isn't UTF-8, since the runtime prints text alone.
#[derive(Drop)]
pub struct RealErr<'r, R: Eprint> {
    rt: &'r R,
    faults: u64,
}

impl<'r, R: Eprint> RealErr<'r, R> {
    /// Standard error with no fault.
    pub fn new(rt: &'r R) -> RealErr<'r, R>
        ensures { ⟦<RealErr<'r, R> as Sink>⟧.faults result ≡ 0 }
    {
        RealErr { rt, faults: 0 }
    }
}

impl<'r, R: Eprint> Sink for RealErr<'r, R> {
    ghost written = { λ s. None };

    ghost faults = { λ s. s.faults };

    fn write(&mut self, piece: &[u8]) -> Result<usize, Failed> {
        if let Ok(text) = str::from_utf8(piece) {
            if self.rt.eprint(text).is_ok() {
                return Ok(piece.len());
            }
        }
        self.faults = self.faults.saturating_add(1);
        Err(Failed)
    }
}
