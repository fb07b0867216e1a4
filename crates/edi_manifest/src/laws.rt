//! Laws of manifests.

ghost use Rattle.edi_manifest.specs.Laws.{LastLinesTellManifests, ManifestsAreOne, ManifestsTellLastLines};

/// Two manifests have one text exactly if the one has the lines of the other, in any order.
pub fn manifests_are_one()
    ensures { ManifestsAreOne }
{}

/// Manifests with the same lines have one last line, and those with one last line have the same lines, unless two texts
/// have one SHA-256.
pub fn last_lines_tell_manifests()
    ensures one { ManifestsTellLastLines }
    ensures back { LastLinesTellManifests }
{}
