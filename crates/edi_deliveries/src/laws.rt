//! Laws of the files of deliveries, and of their manifests.

ghost use Rattle.std.specs.Prelude.{List};
ghost use Rattle.std.specs.List.{AllByRecursion};
ghost use Rattle.edi_answers.specs.Effects.{Stream, inputs};
ghost use Rattle.edi_manifest.specs.declared.line.ManifestLine.{ManifestLine};
ghost use Rattle.edi_schema.specs.Roles.{KindCodes};
ghost use Rattle.edi_deliveries.specs.Deliveries.{Opened};
ghost use Rattle.edi_deliveries.specs.Digests.{OneDigestSameParts, SamePartsOneDigest};
ghost use Rattle.edi_deliveries.specs.Found.{AreLotsFound};
ghost use Rattle.edi_deliveries.specs.LastLines.{OneLastLineSameDeliveries, SameDeliveriesOneLastLine};
ghost use Rattle.edi_deliveries.specs.Laws.{FoundFilesStayInFolders, HeldManifestsAreOne};
ghost use Rattle.edi_deliveries.specs.Parts.{IsLineOfDelivery};

use edi_answers::known::digests_tell_plans;
use edi_changes::laws::same_lists_are_unchanged;
use edi_files::Folder;
use edi_manifest::laws::{last_lines_tell_manifests, manifests_are_one};
use edi_schema_meaning::laws::{one_answer_one_text, one_text_one_answer};

/// A file that is found lies in the folder whose names are known.
pub fn found_files_stay_in_folders()
    ensures { FoundFilesStayInFolders }
{}

/// Where each part of a delivery is found, each line is of one: of a schema, of a sheet under that, or of a coordinate
/// system.
pub fn found_lines_are_of_parts<F: Folder>(folder: &F)
    ensures { (kinds : KindCodes) (d : Opened) (lines : List ManifestLine) (err : Stream)
        → AreLotsFound (inputs F.Folder F.Reader.ByteIn folder.now) (F.why folder.now) kinds d lines err 0
        → AllByRecursion (IsLineOfDelivery (inputs F.Folder F.Reader.ByteIn folder.now) kinds d) lines }
{}

/// Parts of deliveries that mean the same have one digest, and those that have one digest mean the same, unless two
/// texts have one SHA-256.
pub fn digests_tell_parts()
    ensures one_digest { SamePartsOneDigest }
    ensures one_meaning { OneDigestSameParts }
{
    digests_tell_plans();
    one_text_one_answer();
    one_answer_one_text();
}

/// Each name is OK exactly if the manifest of the delivery has the text of the one that it is held against.
pub fn held_manifests_are_one()
    ensures { HeldManifestsAreOne }
{
    same_lists_are_unchanged();
    manifests_are_one();
}

/// The manifests of two deliveries have one last line exactly if the deliveries say the same, unless two texts have one
/// SHA-256: the schemas answer each sheet alike, each sheet has the canonical file of its partner, and the GEO files
/// are equal, by the names that the THF files give.
pub fn last_lines_tell_deliveries()
    ensures one_last_line { SameDeliveriesOneLastLine }
    ensures same { OneLastLineSameDeliveries }
{
    last_lines_tell_manifests();
    one_text_one_answer();
    one_answer_one_text();
}
