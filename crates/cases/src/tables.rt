// The record table at its limits and on the sample batch.
use document::{Growing, OPEN_MARK, Readable};
use record_table::{Record, RecordTable};
use refusal::{Ground, Refusal};
use std::process::Abort;
use std::test::Fail;

fn refused(ground: Ground) -> Result<u32, Refusal> {
    Err(ground.at(0))
}

// The calls of the sample batch: an outer element, and in it an element with a text, and one with an element with a text.
fn sample<D: Growing>(document: &mut D) -> Result<(), Refusal> {
    document.open(1)?;
    document.open(2)?;
    document.text()?;
    document.close(2)?;
    document.open(2)?;
    document.open(3)?;
    document.text()?;
    document.close(3)?;
    document.close(2)?;
    document.close(1)?;
    Ok(())
}

#[test]
fn sample_batch(rt: HostRuntime) -> Result<(), Fail> {
    let mut records = [Record::BLANK; 6];
    let mut table = RecordTable::new(&mut records);
    sample(&mut table)?;
    assert_eq!(rt; table.count(), 6);
    let nodes = [
        (None, 0, 5),
        (Some(0), 1, 1),
        (Some(1), 2, 0),
        (Some(0), 1, 4),
        (Some(3), 2, 3),
        (Some(4), 3, 2),
    ];
    for (node, (parent, level, end)) in (0u32..).zip(nodes) {
        assert_eq!(rt; table.parent(node), Ok(parent));
        assert_eq!(rt; table.level(node), Ok(level));
        assert_eq!(rt; table.end(node), Ok(end));
    }
    assert_eq!(rt; table.innermost(), None);
    assert_eq!(rt; table.open(1), refused(Ground::Ended));
    assert_eq!(rt; table.text(), refused(Ground::Ended));
    assert_eq!(rt; table.close(1), refused(Ground::Ended));
    Ok(())
}

#[test]
fn depth(rt: HostRuntime) {
    let mut records = [Record::BLANK; 80];
    let mut table = RecordTable::new(&mut records);
    for level in 0..64u32 {
        assert_eq!(rt; table.open(9), Ok(level));
    }
    assert_eq!(rt; table.level(63), Ok(63));
    assert_eq!(rt; table.open(9), refused(Ground::TooDeep));
    assert_eq!(rt; table.text(), refused(Ground::TooDeep));
    assert_eq!(rt; table.count(), 64);
    assert_eq!(rt; table.close(9), Ok(63));
    assert_eq!(rt; table.text(), Ok(64));
    assert_eq!(rt; table.level(64), Ok(63));
}

#[test]
fn capacity(rt: HostRuntime) -> Result<(), Fail> {
    let mut records = vec![in rt.alloc(); Record::BLANK; 4096]?;
    let mut table = RecordTable::new(&mut records);
    assert_eq!(rt; table.open(1), Ok(0));
    for node in 1..4096u32 {
        assert_eq!(rt; table.text(), Ok(node));
    }
    assert_eq!(rt; table.open(2), refused(Ground::Full));
    assert_eq!(rt; table.text(), refused(Ground::Full));
    assert_eq!(rt; table.count(), 4096);
    assert_eq!(rt; table.close(1), Ok(0));
    assert_eq!(rt; table.end(0), Ok(4095));
    Ok(())
}

#[test]
fn one_node(rt: HostRuntime) {
    let mut records = [Record::BLANK; 1];
    let mut table = RecordTable::new(&mut records);
    assert_eq!(rt; table.text(), refused(Ground::NotBegun));
    assert_eq!(rt; table.close(1), refused(Ground::NotBegun));
    assert_eq!(rt; table.open(65534), Ok(0));
    assert_eq!(rt; table.text(), refused(Ground::Full));
    assert_eq!(rt; table.close(1), refused(Ground::OtherName));
    assert_eq!(rt; table.close(65534), Ok(0));
}

// Every call is refused, whatever else is wrong with it.
fn unfit(rt: &impl Abort, records: &mut [Record]) {
    let mut table = RecordTable::new(records);
    assert_eq!(rt; table.open(1), refused(Ground::BadCapacity));
    assert_eq!(rt; table.open(0), refused(Ground::BadCapacity));
    assert_eq!(rt; table.text(), refused(Ground::BadCapacity));
    assert_eq!(rt; table.close(1), refused(Ground::BadCapacity));
    assert_eq!(rt; table.count(), 0);
    assert_eq!(rt; table.innermost(), None);
}

#[test]
fn unfit_memory(rt: HostRuntime) -> Result<(), Fail> {
    let mut records = vec![in rt.alloc(); Record::BLANK; 4097]?;
    unfit(&rt, &mut records);
    unfit(&rt, &mut []);
    Ok(())
}

#[test]
fn names(rt: HostRuntime) {
    let mut records = [Record::BLANK; 4];
    let mut table = RecordTable::new(&mut records);
    assert_eq!(rt; table.open(0), refused(Ground::BadName));
    assert_eq!(rt; table.open(65535), refused(Ground::BadName));
    assert_eq!(rt; table.open(65534), Ok(0));
    assert_eq!(rt; table.open(1), Ok(1));
    assert_eq!(rt; table.close(0), refused(Ground::OtherName));
    assert_eq!(rt; table.close(65534), refused(Ground::OtherName));
    assert_eq!(rt; table.name(0), Ok(65534));
    assert_eq!(rt; table.name(1), Ok(1));
    assert_eq!(rt; table.end(1), Ok(OPEN_MARK));
    assert_eq!(rt; table.innermost(), Some(1));
}

#[test]
fn no_node(rt: HostRuntime) -> Result<(), Fail> {
    let mut records = [Record::BLANK; 4];
    let mut table = RecordTable::new(&mut records);
    table.open(1)?;
    assert_eq!(rt; table.parent(0), Ok(None));
    assert_eq!(rt; table.parent(1), Err(Ground::NoNode.at(1)));
    assert!(rt; table.kind(2).is_err());
    assert_eq!(rt; table.name(3), Err(Ground::NoNode.at(3)));
    assert_eq!(rt; table.level(4), Err(Ground::NoNode.at(4)));
    assert_eq!(rt; table.end(4294967295), Err(Ground::NoNode.at(4294967295)));
    Ok(())
}

// A table over used memory begins without nodes, and a call writes one record.
#[test]
fn used_memory(rt: HostRuntime) -> Result<(), Fail> {
    let mut records = [Record::BLANK; 3];
    {
        let mut table = RecordTable::new(&mut records);
        table.open(7)?;
        table.text()?;
        table.close(7)?;
    }
    let kept = records;
    {
        let mut table = RecordTable::new(&mut records);
        assert_eq!(rt; table.count(), 0);
        table.open(8)?;
        assert_eq!(rt; table.open(0), refused(Ground::BadName));
    }
    assert_eq!(rt; records[0].node.name, 8);
    assert_eq!(rt; records[0].node.end, OPEN_MARK);
    assert_eq!(rt; records[1].node.end, kept[1].node.end);
    assert_eq!(rt; kept[0].node.end, 1);
    Ok(())
}
