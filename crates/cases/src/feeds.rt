// Feeds: the sample batch, each kind of damage, and the order of the grounds.
use document::{Call, Readable};
use feed::{Fed, decode, encode, feed};
use record_table::{Record, RecordTable};
use refusal::{Ground, Refusal};
use std::process::Abort;

const SAMPLE: [u8; 40] = [
    1, 0, 1, 0, 1, 0, 2, 0, 2, 0, 0, 0, 3, 0, 2, 0, 1, 0, 2, 0, 1, 0, 3, 0, 2, 0, 0, 0, 3, 0, 3, 0,
    3, 0, 2, 0, 3, 0, 1, 0,
];

// Feeds the bytes to a document of so many nodes, at most sixteen, and compares what came of it.
fn fed(
    rt: &impl Abort,
    nodes: usize,
    bytes: &[u8],
    records: usize,
    stop: Option<Refusal>,
    count: u32,
) {
    let mut memory = [Record::BLANK; 16];
    let mut table = RecordTable::new(&mut memory[0..nodes.min(16)]);
    assert_eq!(rt; feed(&mut table, bytes), Fed { records, stop });
    assert_eq!(rt; table.count(), count);
}

#[test]
fn sample(rt: HostRuntime) {
    fed(&rt, 6, &SAMPLE, 10, None, 6);
    fed(&rt, 5, &SAMPLE, 6, Some(Ground::Full.at(0)), 5);
    fed(&rt, 6, &[], 0, None, 0);
}

// Broken off inside a record, the feed is refused at that record.
#[test]
fn broken_off(rt: HostRuntime) {
    for length in 0..41usize {
        let mut memory = [Record::BLANK; 6];
        let mut table = RecordTable::new(&mut memory);
        let records = length / 4;
        let stop = (length % 4 != 0).then(|| Ground::BadRecord.at(records));
        assert_eq!(rt; feed(&mut table, &SAMPLE[..length]), Fed { records, stop });
    }
}

#[test]
fn bad_records(rt: HostRuntime) {
    let bad = Some(Ground::BadRecord.at(1));
    fed(&rt, 6, &[1, 0, 1, 0, 0, 0, 0, 0], 1, bad, 1);
    fed(&rt, 6, &[1, 0, 1, 0, 4, 0, 1, 0], 1, bad, 1);
    fed(&rt, 6, &[1, 0, 1, 0, 255, 255, 255, 255], 1, bad, 1);
    fed(&rt, 6, &[1, 0, 1, 0, 1, 1, 1, 0], 1, bad, 1);
    fed(&rt, 6, &[1, 0, 1, 0, 2, 0, 1, 0], 1, bad, 1);
    fed(&rt, 6, &[1, 0, 1, 0, 2, 0, 0, 1], 1, bad, 1);
    fed(&rt, 6, &[1, 0, 1, 0, 3], 1, bad, 1);
}

// A short record is bad whatever its bytes; a bad record comes before the call's own grounds, and want of memory before that.
#[test]
fn order(rt: HostRuntime) {
    fed(&rt, 6, &[3], 0, Some(Ground::BadRecord.at(0)), 0);
    fed(&rt, 6, &[3, 0, 1, 0], 0, Some(Ground::NotBegun.at(0)), 0);
    fed(&rt, 6, &[1, 0, 0, 0], 0, Some(Ground::BadName.at(0)), 0);
    fed(&rt, 6, &[1, 0, 255, 255], 0, Some(Ground::BadName.at(0)), 0);
    fed(
        &rt,
        6,
        &[1, 0, 1, 0, 3, 0, 0, 0],
        1,
        Some(Ground::OtherName.at(0)),
        1,
    );
    fed(
        &rt,
        6,
        &[1, 0, 1, 0, 3, 0, 1, 0, 9, 9, 9, 9],
        2,
        Some(Ground::BadRecord.at(2)),
        1,
    );
    fed(
        &rt,
        6,
        &[1, 0, 1, 0, 3, 0, 1, 0, 3, 0, 0, 0],
        2,
        Some(Ground::Ended.at(0)),
        1,
    );
    fed(&rt, 0, &[9, 9, 9, 9], 0, Some(Ground::BadCapacity.at(0)), 0);
    fed(&rt, 0, &[1, 0, 1, 0], 0, Some(Ground::BadCapacity.at(0)), 0);
}

#[test]
fn both_ways(rt: HostRuntime) {
    assert_eq!(rt; decode(7, &encode(Call::Text)), Ok(Call::Text));
    for name in [0, 1, 255, 256, 65534, 65535] {
        for call in [Call::Open(name), Call::Close(name)] {
            assert_eq!(rt; decode(7, &encode(call)), Ok(call));
        }
    }
}
