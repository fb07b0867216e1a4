//! The lots that have come: rules 709 and 710.

ghost use Rattle.std.specs.Prelude.{◌≡◌, ◌++◌, ◌∷◌, [], true, false, None, Some, map, OnOk, IfErr};
ghost use Rattle.std.specs.Str.{str_to_ascii_lowercase};
ghost use Rattle.edi_line.specs.inner.Refusal.{first_broken};
ghost use Rattle.edi_delivery.specs.Lots.{files_of};
ghost use Rattle.edi_delivery.specs.inner.Steps.{IfRule, repeats_earlier};
ghost use Rattle.edi_delivery.specs.inner.Noted.{HasNoted, take_tests};

use crate::fault::LotFault;
use crate::file_name::lower_case;
use crate::lot::Lot;
use edi_hash::NameHash;
use edi_line::Text;
use indexmap::IndexSet;
use std::alloc::Global;

/// Notes the names of a lot's files, in lower case, or says that one of them has been noted already.
fn note_files(
    alloc: Global,
    noted: &mut IndexSet<Text, NameHash>,
    lot: &Lot,
) -> Result<(), LotFault>
    ensures noted { OnOk result (noted.new.keys ≡ noted.old.keys ++ map str_to_ascii_lowercase (files_of lot.now)) }
    ensures apart { OnOk result (repeats_earlier noted.old.keys (map str_to_ascii_lowercase (files_of lot.now)) ≡ false) }
    ensures again { IfErr result (IfRule (λ rule. (rule ≡ 710)
        × (repeats_earlier noted.old.keys (map str_to_ascii_lowercase (files_of lot.now)) ≡ true))) }
{
    let files = lot.files(alloc)?;
    for file in &files {
        if !noted.insert(lower_case(alloc, file.as_slice())?)? {
            return Err(LotFault::Broken(710));
        }
    }
    Ok(())
}

/// The lots that have come, with their names and those of their files in lower case.
pub(crate) struct LotsSoFar {
    lots: Vec<Lot>,
    names: IndexSet<Text, NameHash>,
    files: IndexSet<Text, NameHash>,
}

impl Drop for LotsSoFar {
    fn drop(self) {
        let LotsSoFar {
            lots: _,
            names: _,
            files: _,
        } = self;
    }
}

impl LotsSoFar {
    /// None has come.
    pub(crate) fn new(alloc: Global, hash: NameHash) -> LotsSoFar
        ensures none { result.lots.items ≡ [] }
        ensures noted { HasNoted result }
    {
        LotsSoFar {
            lots: Vec::new(alloc),
            names: IndexSet::with_hasher(alloc, hash),
            files: IndexSet::with_hasher(alloc, hash),
        }
    }

    /// Takes the next lot, or says which of the rules 709 and 710 it breaks, the least if it breaks both.
    pub(crate) fn take(&mut self, alloc: Global, lot: Lot) -> Result<(), LotFault>
        requires { HasNoted self.old }
        ensures noted { OnOk result (HasNoted self.new) }
        ensures more { OnOk result (self.new.lots.items ≡ self.old.lots.items ++ lot ∷ []) }
        ensures sound { OnOk result (first_broken (take_tests self.old.lots.items lot) ≡ None) }
        ensures least { IfErr result (IfRule (λ rule. first_broken (take_tests self.old.lots.items lot) ≡ Some rule)) }
    {
        if !self.names.insert(lower_case(alloc, lot.name.as_slice())?)? {
            return Err(LotFault::Broken(709));
        }
        note_files(alloc, &mut self.files, &lot)?;
        self.lots.push(lot)?;
        Ok(())
    }

    /// The lots.
    pub(crate) fn into_lots(self) -> Vec<Lot>
        ensures { result.items ≡ self.lots.items }
    {
        let LotsSoFar {
            lots,
            names: _,
            files: _,
        } = self;
        lots
    }
}
