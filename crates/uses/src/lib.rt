//! How to call the libraries: small functions, each a whole use with its own contract.
#![tactic(auto)]

pub mod feeding;
pub mod plans;
pub mod sheets;

pub use feeding::{StreamFault, zones_of_stream};
pub use plans::{
    canonical_number, difference_by_objects, draw_sheet, links_naming, objects_with_text,
    place_named,
};
pub use sheets::{
    Unwritten, checked_pairing, count_records, first_wrong_record, found_pairing, is_same_plan,
    pairing_of_accepted, schema_by_identifiers, write_canonical,
};
