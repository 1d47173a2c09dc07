// The token tree (src/token_tree.rs): an image that passed the check, the table walker, and the items of a run of records.
// A record is 12 bytes: kind, text start, skip.
mod items;
mod table;
mod text;
mod types;
mod walker;

pub(crate) use items::{Items, Seen, behind, last_item, record, start_of, start_or};
pub(crate) use table::{components_of, number_at, records_of, run_of, tables_of, width_of};
pub(crate) use text::{byte_at, no_text, part_of, same_text, single};
pub(crate) use types::{Entry, PBind, PText, PVal, Part, Run, Tables, Tree};
pub(crate) use walker::read_at;
