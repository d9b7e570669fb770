// `batch show`: the outline of the document that a feed makes.
use super::failure::Failure;
use document::{MAX_NODES, Readable};
use feed::{RECORD_BYTES, feed};
use names::NameList;
use outline::{Line, NamedLine, Summary};
use record_table::{Record, RecordTable};
use std::io::Read;

// At most 8,192 records of a feed are accepted, so what follows the next one does not matter.
const FEED_BYTES: u64 = RECORD_BYTES as u64 * 8193;

pub(super) fn show(rt: &HostRuntime, names: NameList<'_>) -> Result<(), Failure> {
    let heap = rt.alloc();
    let mut bytes = Vec::new(heap);
    rt.stdin().take(FEED_BYTES).read_to_end(&mut bytes)?;
    let mut records = vec![in heap; Record::BLANK; MAX_NODES]?;
    let mut table = RecordTable::new(&mut records);
    let fed = feed(&mut table, &bytes);
    for node in 0..table.count() {
        let line = NamedLine {
            line: Line::of(&table, node)?,
            names,
        };
        println!(rt; "{line}")?;
    }
    let summary = Summary::of(&table, fed.records);
    println!(rt; "{summary}")?;
    match fed.stop {
        Some(refusal) => Err(Failure::Refused(refusal.ground.at(fed.records))),
        None => Ok(()),
    }
}
