//! Runs the project's cases: each file of cases names a call, and each case in it says what that call has to answer.
#![tactic(auto)]

mod call;
mod case;
mod devices;
mod layers;
mod lines;
mod numbers;
mod outcomes;
mod pairs;
mod phases;
mod records;
mod refusals;
mod runs;
mod schemas;
mod setting;
mod sheets;
mod text;
mod texts;

use anyhow::{Context, Result};
use case::Case;
use setting::Setting;
use std::process::ExitCode;
use std::rt::Runtime;
use std::{env, fs};

/// How many cases were run, and how many of them were answered otherwise than they should be.
#[derive(Drop)]
struct Tally {
    run: u64,
    failed: u64,
}

fn main(rt: HostRuntime) -> Result<ExitCode> {
    let tally = run_files(&rt)?;
    println!(rt; "{} cases, {} failed", tally.run, tally.failed)?;
    Ok(ExitCode::from(u8::from(tally.failed > 0)))
}

// The files that the words name, one after the other.
fn run_files<R: Runtime + AllocGlobal>(rt: &R) -> Result<Tally> {
    let mut tally = Tally { run: 0, failed: 0 };
    for path in env::args(rt)?.skip(1) {
        run_file(rt, path.as_str(), &mut tally)?;
    }
    Ok(tally)
}

fn run_file<R: Runtime + AllocGlobal>(rt: &R, path: &str, tally: &mut Tally) -> Result<()> {
    let text = fs::read_to_string(rt, path).context(format_args!("reading {path}"))?;
    let (head, cases) = text
        .split_once("--\n")
        .context(format_args!("no case in {path}"))?;
    run_cases(rt, path, head, cases, tally)
}

// The cases of a file. Its head has the name of a call for a title, and what all its cases share.
fn run_cases<R: Runtime + AllocGlobal>(
    rt: &R,
    path: &str,
    head: &str,
    cases: &str,
    tally: &mut Tally,
) -> Result<()> {
    let shared = Case::read(rt.alloc(), head)?;
    println!(rt; "{path}: {}", shared.title)?;
    run_under(rt, &shared, cases, tally)
}

fn run_under<R: Runtime + AllocGlobal>(
    rt: &R,
    shared: &Case<'_>,
    cases: &str,
    tally: &mut Tally,
) -> Result<()> {
    let setting = Setting::of(rt.alloc(), shared)?;
    run_blocks(rt, shared.title, &setting, cases, tally)
}

fn run_blocks<R: Runtime + AllocGlobal>(
    rt: &R,
    call: &str,
    setting: &Setting<'_>,
    cases: &str,
    tally: &mut Tally,
) -> Result<()> {
    for block in cases.split("--\n") {
        run_case(rt, call, setting, block, tally)?;
    }
    Ok(())
}

fn run_case<R: Runtime + AllocGlobal>(
    rt: &R,
    call: &str,
    setting: &Setting<'_>,
    block: &str,
    tally: &mut Tally,
) -> Result<()> {
    let case = Case::read(rt.alloc(), block)?;
    let answer = answer(rt, call, setting, &case)?;
    report(rt, &case, answer.as_str(), tally)
}

// What a call answers to a case. Where memory runs out the call is made once more, under the schema that it borrowed.
fn answer<R: Runtime + AllocGlobal>(
    rt: &R,
    call: &str,
    setting: &Setting<'_>,
    case: &Case<'_>,
) -> Result<String> {
    if let Ok(answer) = call::answer(rt.alloc(), call, setting, case) {
        return Ok(answer);
    }
    println!(rt; "  again   {}: out of memory", case.title)?;
    Ok(call::answer(rt.alloc(), call, setting, case)?)
}

// Counts a case, and prints whether it was answered as it should be.
fn report<R: Runtime + AllocGlobal>(
    rt: &R,
    case: &Case<'_>,
    answer: &str,
    tally: &mut Tally,
) -> Result<()> {
    tally.run = tally.run.saturating_add(1);
    if answer == case.wanted {
        println!(rt; "  ok      {}", case.title)?;
        return Ok(());
    }
    tally.failed = tally.failed.saturating_add(1);
    println!(rt; "  FAILED  {}", case.title)?;
    print!(rt; "wanted:\n{}", case.wanted)?;
    print!(rt; "answered:\n{answer}")?;
    Ok(())
}
