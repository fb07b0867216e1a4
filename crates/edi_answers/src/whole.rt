//! Inputs that are read whole.
ghost use Rattle.std.specs.Prelude.{◌≡◌, IfErr, IfOk};
ghost use Rattle.edi_answers.specs.Effects.{inputs};
ghost use Rattle.edi_answers.specs.WholeInputs.{WholeInputFault, OfWholeInput};

use crate::sheets::open_input;
use edi_compare::{Input, RunFault, read_input};
use edi_files::Folder;
use std::alloc::Global;

/// The bytes of the input of a path, which a fault names as the first.
pub fn read_path<F: Folder>(alloc: Global, folder: &F, path: &str) -> Result<Vec<u8>, RunFault>
    ensures ok { IfOk result (λ bytes.
        OfWholeInput (inputs F.Folder F.Reader.ByteIn folder.now) path.now (λ b. bytes.items ≡ b)) }
    ensures err { IfErr result (WholeInputFault (inputs F.Folder F.Reader.ByteIn folder.now) path.now) }
{
    let mut reader = open_input(folder, path, Input::Only)?;
    read_input(alloc, &mut reader, Input::Only)
}
