//! The system's words and its stream of errors.
//!
//! Which words it gives can't be known, so nothing of them is claimed.
ghost use Rattle.std.specs.Prelude.{◌≡◌, ℕ, List, None, IfOk, map, string_bytes, ⊤, false};

use crate::progress::{Progress, ProgressLine};
use edi_line::ByteOut;
use std::rt::Env;
use std::time::Clock;
use std::{env, io};

/// Where the words of a command line come from, of which the first is the program's name.
pub trait WordSource {
    /// The words that are given.
    ghost gives: { Self → List (List ℕ) → Type 0 };

    /// The words, if memory suffices and all are UTF-8.
    fn words(&self) -> io::Result<Vec<String>>
        ensures { IfOk result (λ words. gives self.now (map string_bytes words.items)) };
}

/// The words that the system gives.
#[derive(Drop)]
pub struct CommandLine<'a, R> {
    pub rt: &'a R,
}

impl<R: Env + AllocGlobal> WordSource for CommandLine<'_, R> {
    ghost gives = { λ _ _. ⊤ };

    fn words(&self) -> io::Result<Vec<String>> {
        Ok(env::args(self.rt)?.collect(self.rt.alloc())?)
    }
}

/// The stream of errors of the system. Bytes that are no text don't go out.
#[derive(Drop)]
pub struct Errors<'a, R> {
    rt: &'a R,
    failed: bool,
    progress: ProgressLine<'a, R>,
}

impl<'a, R: Eprint> Errors<'a, R> {
    /// The stream of errors, which has not failed. Where it is a terminal, it shows how far a run has come.
    pub fn new(rt: &'a R, is_terminal: bool) -> Errors<'a, R>
        ensures { ⟦<Errors<'a, R> as ByteOut>⟧.has_failed result ≡ false }
    {
        Errors {
            rt,
            failed: false,
            progress: ProgressLine::new(rt, is_terminal),
        }
    }
}

impl<R: Eprint> ByteOut for Errors<'_, R> {
    ghost contents = { λ _. None };

    ghost has_failed = { λ s. s.failed };

    ghost writes = { λ _. 0 };

    fn write(&mut self, bytes: &[u8]) -> Option<usize> {
        if self.failed {
            return None;
        }
        self.progress.wipe();
        let printed = match std::str::from_utf8(bytes) {
            Ok(text) => self.rt.eprint(text).is_ok(),
            Err(_) => false,
        };
        self.failed = !printed;
        if printed { Some(bytes.len()) } else { None }
    }
}

impl<R: Eprint + Clock> Progress for Errors<'_, R> {
    fn begin(&self, all: usize) {
        self.progress.begin(all);
    }

    fn count(&self, is_wrong: bool) {
        self.progress.count(is_wrong);
    }

    fn end(&self) {
        self.progress.end();
    }
}
