// Feeds: records of four bytes, each a call on a growing document.
#![tactic(auto)]

mod reading;
mod records;

pub use reading::{Fed, feed, feed_record, feeds_stand};
pub use records::{RECORD_BYTES, decode, encode};
