//! Pointers, and the records that the zones of a file state.
#![tactic(auto)]

pub mod any_record;
mod attributes;
mod block;
pub mod blocks;
mod blocks_ahead;
pub mod broken;
mod counts;
mod draft;
pub mod end;
mod ends;
mod extras;
pub mod fault;
mod flat_lists;
mod group_rules;
pub mod groups;
pub mod identifier;
pub mod laws;
pub mod list;
mod long_texts;
mod marked;
pub mod name;
mod only;
mod part_lists;
pub mod pointer;
mod points;
mod read_pointer;
pub mod reading;
pub mod record;
mod record_parts;
pub mod record_ref;
mod remade_block;
pub mod remaking;
mod role;
mod shared_parts;
pub mod sheet;
pub mod sheet_records;
mod stating;
pub mod title;
mod words;

pub use any_record::AnyRecordRef;
pub use blocks::Blocks;
pub use broken::broken_records_from;
pub use counts::is_count;
pub use end::End;
pub use fault::{RecordFault, SheetFault};
pub use groups::{first_value, group_here, lacks_identifier};
pub use identifier::Identifier;
pub use list::{NoObserver, read_sheet, read_sheet_from, read_sheet_with};
pub use name::Name;
pub use pointer::{Pointer, texts_are_unique};
pub use points::is_position;
pub use reading::{
    known_files_are_read, printed_records_break_no_rule, printed_sheets_are_sound,
    read_sheets_are_printable, read_sheets_are_whole, records, records_are_read_again,
    records_are_unique, sheets_are_printable, stated_records_have_names,
};
pub use record::{Attribute, Extra, Kind, Point, Record, Value};
pub use record_ref::RecordRef;
pub use remaking::Remaking;
pub use sheet::Sheet;
pub use sheet_records::SheetRecords;
pub use title::RecordTitle;
