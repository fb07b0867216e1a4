//! Runs over readers and writers that fail.

ghost use Rattle.std.specs.Prelude.{◌<◌};

use crate::case::Case;
use crate::refusals::push_run_fault;
use crate::setting::Setting;
use crate::sheets::bundle_of;
use edi_compare::{RunFault, canon_of, run_bundle, run_canon, run_check, run_compare};
use edi_line::{ScriptIn, ScriptOut};
use edi_schema::Kinds;
use std::alloc::{AllocError, Global};

/// The runs over readers.
#[derive(Clone, Copy)]
enum Run {
    Check,
    CanonOf,
    Canon,
    Compare,
    Bundle,
}

impl Run {
    fn name(self) -> &'static str {
        match self {
            Run::Check => "run_check",
            Run::CanonOf => "canon_of",
            Run::Canon => "run_canon",
            Run::Compare => "run_compare",
            Run::Bundle => "run_bundle",
        }
    }
}

/// The readers of a run.
#[derive(Drop)]
struct Readers<'a> {
    scd: ScriptIn<'a>,
    dic: ScriptIn<'a>,
    first: ScriptIn<'a>,
    second: ScriptIn<'a>,
}

impl<'a> Readers<'a> {
    // Readers of these files, of which each fails at the read that stands at its place, or never where that is 0.
    fn of(files: &[&'a [u8]; 4], faults: [u64; 4]) -> Readers<'a> {
        Readers {
            scd: ScriptIn::new(files[0], 200, faults[0], false),
            dic: ScriptIn::new(files[1], 200, faults[1], false),
            first: ScriptIn::new(files[2], 200, faults[2], false),
            second: ScriptIn::new(files[3], 200, faults[3], false),
        }
    }

    // How often each file was read.
    fn calls(&self) -> [u64; 4] {
        [
            self.scd.calls(),
            self.dic.calls(),
            self.first.calls(),
            self.second.calls(),
        ]
    }
}

/// How a run ended.
#[derive(Clone, Copy, PartialEq)]
enum Ending {
    Whole,
    Unread(u8),
    Otherwise,
}

/// How a run ended, how often each input was read, and how often the output was written.
#[derive(Clone, Copy)]
struct Ran {
    end: Ending,
    reads: [u64; 4],
    writes: u64,
}

/// Whether each run over the files of a sheet stops at each read that fails: it names that input, reads no later one
/// and writes nothing.
pub(crate) fn push_reads(
    alloc: Global,
    setting: &Setting<'_>,
    case: &Case<'_>,
    text: &mut String,
) -> Result<(), AllocError> {
    let sheet = case.input(0).as_bytes();
    let files = [setting.scd.as_bytes(), setting.dic.as_bytes(), sheet, sheet];
    for run in [Run::Check, Run::CanonOf, Run::Canon, Run::Compare] {
        push_stops(alloc, &setting.kinds, run, &files, text)?;
    }
    let bundle = bundle_of(alloc, setting, sheet)?;
    push_stops(
        alloc,
        &setting.kinds,
        Run::Bundle,
        &[&bundle, b"", b"", b""],
        text,
    )
}

// Whether a run over these files stops at each read that fails.
fn push_stops(
    alloc: Global,
    kinds: &Kinds<'_>,
    run: Run,
    files: &[&[u8]; 4],
    text: &mut String,
) -> Result<(), AllocError> {
    let whole = run_over(alloc, kinds, run, files, [0; 4])?;
    let mut all = whole.end == Ending::Whole;
    for place in 0..4 {
        all = all && stops_at_each(alloc, kinds, run, files, place, whole.reads[place])?;
    }
    let answer = if all {
        "stops at each read that fails"
    } else {
        "goes on"
    };
    writeln!(text, "{} {answer}", run.name())
}

// Whether a run stops at each read of this input that fails, of so many.
fn stops_at_each(
    alloc: Global,
    kinds: &Kinds<'_>,
    run: Run,
    files: &[&[u8]; 4],
    place: usize,
    reads: u64,
) -> Result<bool, AllocError>
    requires { place < 4 }
{
    let mut all = true;
    for read in 1..=reads {
        let mut faults = [0; 4];
        faults[place] = read;
        let ran = run_over(alloc, kinds, run, files, faults)?;
        all = all && has_stopped_at(&ran, place, read);
    }
    Ok(all)
}

// Whether a run stopped at this read of this input.
fn has_stopped_at(ran: &Ran, place: usize, read: u64) -> bool {
    let mut all = ran.writes == 0;
    for (at, count) in ran.reads.iter().enumerate() {
        let wanted = if at == place { read } else { 0 };
        all = all && (at < place || *count == wanted);
    }
    match ran.end {
        Ending::Unread(input) => all && usize::from(input) == place.wrapping_add(1),
        Ending::Whole | Ending::Otherwise => false,
    }
}

fn run_over(
    alloc: Global,
    kinds: &Kinds<'_>,
    run: Run,
    files: &[&[u8]; 4],
    faults: [u64; 4],
) -> Result<Ran, AllocError> {
    let mut readers = Readers::of(files, faults);
    let mut out = ScriptOut::new(alloc, 1 << 16, 200, 0)?;
    let end = end_of(fault_of(alloc, kinds, run, &mut readers, &mut out))?;
    Ok(Ran {
        end,
        reads: readers.calls(),
        writes: out.calls(),
    })
}

// The fault of a run, if any.
fn fault_of(
    alloc: Global,
    kinds: &Kinds<'_>,
    run: Run,
    readers: &mut Readers<'_>,
    out: &mut ScriptOut,
) -> Option<RunFault> {
    let Readers {
        scd,
        dic,
        first,
        second,
    } = readers;
    match run {
        Run::Check => run_check(alloc, kinds, scd, dic, first).err(),
        Run::CanonOf => canon_of(alloc, kinds, scd, dic, first).err(),
        Run::Canon => run_canon(alloc, kinds, scd, dic, first, out).err(),
        Run::Compare => run_compare(alloc, kinds, scd, dic, first, second).err(),
        Run::Bundle => run_bundle(alloc, kinds, scd, out).err(),
    }
}

fn end_of(fault: Option<RunFault>) -> Result<Ending, AllocError> {
    match fault {
        None => Ok(Ending::Whole),
        Some(RunFault::Read { input }) => Ok(Ending::Unread(input)),
        Some(RunFault::Memory(fault)) => Err(fault),
        Some(_) => Ok(Ending::Otherwise),
    }
}

/// Whether a writer that takes one byte a call, and fails at each call in turn, gets the bytes of the calls before.
pub(crate) fn push_writes(
    alloc: Global,
    setting: &Setting<'_>,
    case: &Case<'_>,
    text: &mut String,
) -> Result<(), AllocError> {
    let sheet = case.input(0).as_bytes();
    let file = write_until_fault(alloc, setting, sheet, 0, text)?;
    for taken in 0..file.out().len() {
        let stopped = write_until_fault(alloc, setting, sheet, taken as u64 + 1, text)?;
        if file.out().get(..taken) != Some(stopped.out()) {
            writeln!(text, "other bytes than the first {taken} went out")?;
        }
    }
    text.push_str("the bytes before each write that fails went out\n")
}

// What `run_canon` wrote, byte by byte, to a writer that fails at this call. Another fault is printed.
fn write_until_fault(
    alloc: Global,
    setting: &Setting<'_>,
    sheet: &[u8],
    fault_at: u64,
    text: &mut String,
) -> Result<ScriptOut, AllocError> {
    let mut out = ScriptOut::new(alloc, 1 << 16, 1, fault_at)?;
    let mut scd = ScriptIn::new(setting.scd.as_bytes(), 1000, 0, false);
    let mut dic = ScriptIn::new(setting.dic.as_bytes(), 1000, 0, false);
    let mut vec = ScriptIn::new(sheet, 1000, 0, false);
    let kinds = &setting.kinds;
    match run_canon(alloc, kinds, &mut scd, &mut dic, &mut vec, &mut out) {
        Ok(()) => Ok(out),
        Err(RunFault::Write(written)) if written.count.checked_add(1) == Some(fault_at) => Ok(out),
        Err(fault) => {
            push_run_fault(text, "", fault)?;
            Ok(out)
        }
    }
}
