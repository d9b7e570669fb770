// The record table: a document in lent memory, one record a node.
#![tactic(auto)]

mod growing;
mod readable;
mod table;

pub use table::{Record, RecordTable};
