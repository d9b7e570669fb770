// Records read into a document, whatever memory it is kept in.
ghost use Rattle.feed.specs.Feeds.{Probed, Recorded, FedTo, FeedsOnce};

use super::records::{RECORD_BYTES, decode};
use document::{Growing, Readable, perform};
use refusal::{Ground, Refusal};

// How many records of a feed were accepted, and the refusal of the next one, if it came to that.
// What was accepted counts also where the next record is refused, so this is no `Result`.
#[derive(Clone, Copy, PartialEq, Eq, Debug)]
pub struct Fed {
    pub records: usize,
    pub stop: Option<Refusal>,
}

// Whether the document has memory for no node or for too many.
// No element has the name 0, so this close is refused and changes nothing, and want of memory is its first ground.
fn unfit<D: Growing>(document: &mut D) -> bool
    ensures { Probed D.Readable.nodes D.Growing.room document.old result document.new }
{
    document.close(0) == Err(Ground::BadCapacity.at(0))
}

// Makes the call that the record of this index stands for.
pub fn feed_record<D: Growing>(document: &mut D, index: usize, bytes: &[u8]) -> Result<u32, Refusal>
    ensures { Recorded D.Readable.nodes D.Growing.room document.old index bytes.now result document.new }
{
    match decode(index, bytes) {
        Ok(call) => perform(document, call),
        Err(_) if unfit(document) => Err(Ground::BadCapacity.at(0)),
        Err(refusal) => Err(refusal),
    }
}

// Makes the calls of a feed, to its end or to the first record that is refused.
pub fn feed<D: Growing>(document: &mut D, bytes: &[u8]) -> Fed
    ensures { FedTo D.Readable.nodes D.Growing.room document.old bytes.now result.records result.stop document.new }
{
    for (index, record) in bytes.chunks(RECORD_BYTES).enumerate() {
        if let Err(refusal) = feed_record(document, index, record) {
            return Fed {
                records: index,
                stop: Some(refusal),
            };
        }
    }
    // Every record was accepted, so each is whole.
    Fed {
        records: bytes.len() / RECORD_BYTES,
        stop: None,
    }
}

// A feed has one outcome.
pub fn feeds_stand()
    ensures { FeedsOnce }
{}
