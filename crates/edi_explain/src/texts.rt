//! The texts of the rules, by phases.

ghost use Rattle.std.specs.Prelude.{◌≡◌, flat_map, map};
ghost use Rattle.edi_explain.specs.Texts.{rule_texts, words_of_text};

mod deliveries;
mod lines;
mod objects;
mod records;
mod references;
mod schemas;
mod topology;

use crate::text::RuleText;

/// The texts of each phase: of lines, records, references, topology, objects, schemas and deliveries.
pub(crate) fn texts_by_phase() -> [&'static [RuleText]; 7]
    ensures { flat_map (λ texts. map words_of_text texts.now) result ≡ rule_texts }
{
    [
        &lines::LINES,
        &records::RECORDS,
        &references::REFERENCES,
        &topology::TOPOLOGY,
        &objects::OBJECTS,
        &schemas::SCHEMAS,
        &deliveries::DELIVERIES,
    ]
}
