//! The entries of a volume, for lq_volume: their attributes, the records by node, and the nodes by
//! folder and name.
//!
//! Contracts see the list of records by rising node (`specs/Record`), and the attributes of each as
//! the list of names and values in order of first setting (`specs/Attributes`). `specs/Edits` says
//! what each edit makes of the records, `specs/Folder` what is in a folder. The index of places is
//! by folder, then by a hash of the name (`specs/Places`); it shows in no public clause. Nothing
//! here waits. Tests: `entry_rows`, `listings` and `again` of lq_tests. Begin with `stored_record`,
//! then `attributes`, `places`, `records` and `entries`.
#![tactic(auto)]

mod attr_table;
mod attributes;
mod entries;
mod laws;
mod node_hash;
mod node_set;
mod places;
mod record_changes;
mod record_filter;
mod records;
mod stored_record;

pub use entries::Entries;
pub use laws::{names_stay_apart, records_are_kept, values_are_found};
pub use node_set::NodeSet;
pub use record_filter::RecordFilter;
pub use stored_record::StoredRecord;
