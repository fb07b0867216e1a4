//! The command: canonical files of cadastral sheets.
#![tactic(auto)]

mod command;
mod sheets;

use std::env;
use std::io::IsTerminal;
use std::process::ExitCode;

fn main(rt: HostRuntime) -> ExitCode {
    if awaits_bundle(&rt) {
        let _ = rt.eprintln(
            "reading SCD, DIC and VEC from the terminal, one after the other; edicad --help says more",
        );
    }
    ExitCode::from(command::run(&rt, shows_progress(&rt)))
}

// Whether there are no words, and what is typed is read.
fn awaits_bundle(rt: &HostRuntime) -> bool {
    match env::args(rt) {
        Ok(mut words) => words.nth(1).is_none() && rt.stdin().is_terminal(),
        Err(_) => false,
    }
}

// Whether standard error is a terminal that can wipe a line.
fn shows_progress(rt: &HostRuntime) -> bool {
    rt.stderr().is_terminal() && !is_dumb(rt)
}

fn is_dumb(rt: &HostRuntime) -> bool {
    match env::var(rt, "TERM") {
        Ok(kind) => kind.as_str() == "dumb",
        Err(_) => false,
    }
}
