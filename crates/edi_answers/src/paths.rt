//! Paths, and the names that lines have for them.
ghost use Rattle.std.specs.Prelude.{◌≡◌, ◌<◌, IfOk, length};
ghost use Rattle.edi_outcome.specs.Words.{FaultHasNames, text_in, texts};
ghost use Rattle.edi_answers.specs.Paths.{input_name, names_of_paths, output_name, path_of_fault};

use edi_compare::RunFault;
use edi_words::is_standard;
use std::alloc::{AllocError, Global};

/// The name of an input in a line.
pub fn input_name(path: &str) -> &[u8]
    ensures { result.now ≡ input_name path.now }
{
    if is_standard(path) {
        b"standard input"
    } else {
        path.as_bytes()
    }
}

/// The name of an output in a line.
pub fn output_name(path: &str) -> &[u8]
    ensures { result.now ≡ output_name path.now }
{
    if is_standard(path) {
        b"standard output"
    } else {
        path.as_bytes()
    }
}

/// The names of the inputs of these paths, and of the output, whose path is the last.
pub fn names_of_paths<'a>(alloc: Global, paths: &[&'a str]) -> Result<Vec<&'a [u8]>, AllocError>
    ensures { IfOk result (λ names. texts names.items ≡ names_of_paths (texts paths.now)) }
{
    let mut names = Vec::new(alloc);
    let [inputs @ .., output] = paths else {
        return Ok(names);
    };
    for path in inputs {
        names.push(input_name(*path))?;
    }
    names.push(output_name(*output))?;
    Ok(names)
}

/// The path of a fault: that of the input or of the output that failed, or no text.
pub fn path_of_fault<'a>(fault: &RunFault, paths: &[&'a str]) -> &'a str
    requires { FaultHasNames fault.now (length paths.now) }
    ensures { result.now ≡ path_of_fault fault.now (texts paths.now) }
{
    match fault {
        RunFault::Read { input } | RunFault::TooLong { input } => {
            path_in(paths, *input as usize - 1)
        }
        RunFault::Write(_) => path_in(paths, paths.len() - 1),
        RunFault::Memory(_) | RunFault::Schema(_) | RunFault::First(_) | RunFault::Second(_) => "",
    }
}

// The path at a place.
fn path_in<'a>(paths: &[&'a str], place: usize) -> &'a str
    requires { place < length paths.now }
    ensures { result.now ≡ text_in (texts paths.now) place }
{
    paths[place]
}
