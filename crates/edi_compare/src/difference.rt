//! Where two files differ.

ghost use Rattle.std.specs.Prelude.{◌≡◌, ◌+◌, ◌++◌, ◌<◌, ◌==◌, ◌^◌, ◌≤◌, MatchOption, count_by, length, take};
ghost use Rattle.edi_line.specs.Bytes.{line_feed};
ghost use Rattle.edi_compare.specs.inner.Differing.{differ_from};
ghost use Rattle.edi_compare.specs.Verdicts.{IsFirstDifference};

/// How many bytes of two files are compared at once.
const STRIDE: usize = 64;

/// In how many bytes line feeds are counted at once: fewer than 256, so that a byte holds the count.
const RUN: usize = 192;

/// The number of the first line, from 1, in which two files differ or that one of them lacks; or `None` where they are
/// equal. Of the second file only what stands behind a front of so many bytes is given, which both have.
pub(crate) fn first_difference(first: &[u8], front: usize, rest: &[u8]) -> Option<u64>
    requires { front ≤ length first.now }
    ensures { MatchOption result (first.now ≡ take front first.now ++ rest.now)
        (IsFirstDifference first.now (take front first.now ++ rest.now)) }
{
    let ahead = &first[front..];
    if ahead == rest {
        return None;
    }
    let more = equal_front(ahead, rest);
    let line = 1 + newlines_in(&first[..front + more]);
    difference_behind(line, &ahead[more..], &rest[more..])
}

/// A number of bytes at the front of two files that are equal. Whole runs of 64 bytes are compared at once, since
/// files that differ mostly have a long front in common.
fn equal_front(first: &[u8], second: &[u8]) -> usize
    ensures in_first { result ≤ length first.now }
    ensures in_second { result ≤ length second.now }
    ensures equal { take result first.now ≡ take result second.now }
{
    let len = first.len().min(second.len());
    let mut at = 0;
    while len - at >= STRIDE && first[at..at + STRIDE] == second[at..at + STRIDE] {
        at += STRIDE;
    }
    at
}

/// How many line feeds bytes have.
fn newlines_in(bytes: &[u8]) -> u64
    ensures { result ≡ count_by (λ c. c == line_feed) bytes.now }
{
    let mut count = 0;
    let mut rest = bytes;
    while !rest.is_empty() {
        let (run, behind) = rest.split_at(rest.len().min(RUN));
        count += u64::from(newlines_in_run(run));
        rest = behind;
    }
    count
}

/// How many line feeds a short run of bytes has. They are counted in a byte, since that is many times faster than in a
/// longer number: a processor then adds up sixteen at once.
fn newlines_in_run(run: &[u8]) -> u8
    requires { length run.now < 256 }
    ensures { result ≡ count_by (λ c. c == line_feed) run.now }
{
    let mut count = 0;
    for byte in run {
        count += u8::from(*byte == b'\n');
    }
    count
}

/// The number of the first line in which the rests of two files differ or that one of them lacks, where both begin in
/// the line with this number; or `None` where they are equal.
fn difference_behind(mut line: u64, first: &[u8], second: &[u8]) -> Option<u64>
    requires { line + length first.now < 2 ^ 64 }
    ensures { result ≡ differ_from line first.now second.now }
{
    for (a, b) in first.iter().zip(second) {
        if a != b {
            return Some(line);
        }
        if *a == b'\n' {
            line += 1;
        }
    }
    if first.len() == second.len() {
        None
    } else {
        Some(line)
    }
}
