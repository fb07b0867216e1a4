//! What refusals speak of: records with their lines and identifiers, rules in words, and earlier records.
#![tactic(auto)]

mod astray;
pub mod barring;
pub mod breaking;
pub mod class_counts;
mod contents;
pub mod counts;
mod cuts;
pub mod elsewhere;
mod end_nodes;
pub mod examined;
pub mod explained;
mod extra_zones;
pub mod hints;
pub mod kind_causes;
pub mod kind_classes;
pub mod kind_lines;
pub mod known;
mod lengths;
mod lines;
pub mod listing;
mod lost_ends;
pub mod refusal_hints;
pub mod refused;
mod right_texts;
pub mod rows;
pub mod rules;
pub mod site;
pub mod skipped;
pub mod text;
mod texts;
mod unknown;
mod wrong_texts;
mod zone_lines;

pub use barring::barring_line;
pub use class_counts::{describe_classes, describe_sheet};
pub use counts::count_of;
pub use elsewhere::{StrayEnds, elsewhere_hint, has_named, stray_ends};
pub use examined::{Found, examine};
pub use explained::{
    NamedFile, describe_plan, explain_schema, explain_sheet, page_of, rule_of_word,
};
pub use hints::{DeliveryPart, hints_of, hints_on, part_of, part_of_type};
pub use kind_causes::{KindsCase, KindsCause, kinds_cause};
pub use kind_lines::{describe_kinds, lacking_kinds};
pub use listing::{push_line_rule, push_record_rule, sites_of_all};
pub use refusal_hints::hints_on_refused;
pub use refused::RefusalSites;
pub use rows::row_namesake;
pub use rules::list_rules;
pub use site::RecordSite;
pub use skipped::describe_skipped;
pub use text::{RuleText, rule_text};
