// What people read: the refusals, the outline and the sentence.
use document::Growing;
use names::NameList;
use outline::{Line, NamedLine, Summary};
use pointer::Pointer;
use record_table::{Record, RecordTable};
use refusal::Ground;
use std::fmt;
use std::process::Abort;
use std::test::Fail;

// Each ground, at seven times its index.
#[test]
fn refusals(rt: HostRuntime) -> Result<(), Fail> {
    let lines = [
        (
            Ground::BadCapacity,
            "1 source 0: the document has memory for no node, or for more than 4,096",
        ),
        (
            Ground::Ended,
            "2 source 7: the document has ended: node 0 is closed",
        ),
        (
            Ground::NotBegun,
            "3 source 14: the document has no node yet, and only an open can begin it",
        ),
        (
            Ground::BadName,
            "4 source 21: an element's name number is 1 to 65,534",
        ),
        (
            Ground::TooDeep,
            "5 source 28: the node would lie deeper than level 63",
        ),
        (
            Ground::Full,
            "6 source 35: the document has no room for another node",
        ),
        (
            Ground::OtherName,
            "7 source 42: the close does not name the innermost open element",
        ),
        (
            Ground::NoNode,
            "8 source 49: the document has no node of this number",
        ),
        (
            Ground::BadEntry,
            "9 list 56: the list's entry is not above the one before it, or is no node",
        ),
        (
            Ground::TooSmall,
            "10 list 63: the memory given has too few places or bytes",
        ),
        (
            Ground::LongText,
            "11 path 70: the path's text is over 1,024 bytes",
        ),
        (
            Ground::NotPath,
            "12 path 77: the text is not a path from here on",
        ),
        (Ground::UnknownAxis, "13 path 84: the axis word is unknown"),
        (Ground::LongName, "14 path 91: the name is over 32 bytes"),
        (
            Ground::UnknownName,
            "15 path 98: the name is not in the name list",
        ),
        (
            Ground::TooManySteps,
            "16 path 105: the path has more than fifteen steps",
        ),
        (
            Ground::BadLine,
            "17 names 112: the line of the name list is not a new name of 1 to 32 bytes and a line end, or is one too many",
        ),
        (
            Ground::BadTable,
            "18 table 119: the bytes are not a saved document",
        ),
        (
            Ground::NotEmpty,
            "19 run 126: the run was set up over a document that had nodes",
        ),
        (
            Ground::BadRecord,
            "20 feed 133: the feed record is not an open, a text without a name, or a close, in four bytes",
        ),
    ];
    for (index, (ground, line)) in lines.into_iter().enumerate() {
        shows(&rt, ground.at(index.saturating_mul(7)), line)?;
    }
    Ok(())
}

#[test]
fn outline(rt: HostRuntime) -> Result<(), Fail> {
    let mut records = [Record::BLANK; 3];
    let mut table = RecordTable::new(&mut records);
    shows(
        &rt,
        Summary::of(&table, 0),
        "Read 0 records: 0 nodes, 0 elements open.",
    )?;
    table.open(65534)?;
    shows(
        &rt,
        Summary::of(&table, 1),
        "Read 1 record: 1 node, 1 element open.",
    )?;
    table.text()?;
    shows(&rt, Line::of(&table, 0)?, "0 element 65534 open")?;
    shows(&rt, Line::of(&table, 1)?, "  1 text end 0")
}

#[test]
fn named_lines(rt: HostRuntime) -> Result<(), Fail> {
    let mut records = [Record::BLANK; 3];
    let mut table = RecordTable::new(&mut records);
    table.open(65534)?;
    table.text()?;
    table.open(2)?;
    named(
        &rt,
        Line::of(&table, 2)?,
        NameList::empty(),
        "  2 element 2 open",
    )?;
    let names = NameList::new(b"book\nchapter\n")?;
    named(&rt, Line::of(&table, 0)?, names, "0 element 65534 open")?;
    named(&rt, Line::of(&table, 1)?, names, "  1 text end 0")?;
    named(&rt, Line::of(&table, 2)?, names, "  2 element chapter open")
}

// What is formatted is this text.
fn shows(
    rt: &(impl Abort + AllocGlobal),
    shown: impl fmt::Display + Drop,
    expected: &str,
) -> Result<(), Fail> {
    let text = format!(in rt.alloc(); "{shown}")?;
    assert_eq!(rt; text.as_str(), expected);
    Ok(())
}

fn named(
    rt: &(impl Abort + AllocGlobal),
    line: Line,
    names: NameList<'_>,
    expected: &str,
) -> Result<(), Fail> {
    shows(rt, NamedLine { line, names }, expected)
}

fn pointed(
    rt: &(impl Abort + AllocGlobal),
    text: &[u8],
    place: usize,
    expected: &str,
) -> Result<(), Fail> {
    shows(rt, Pointer { text, place }, expected)
}

#[test]
fn pointers(rt: HostRuntime) -> Result<(), Fail> {
    pointed(&rt, b"", 0, "\n^")?;
    pointed(&rt, b"/a/", 3, "/a/\n   ^")?;
    pointed(&rt, b"/a\n", 2, "/a?\n  ^")?;
    pointed(&rt, b"/gr\xc3\xb6\xc3\x9fe", 3, "/gr????e\n   ^")?;
    pointed(
        &rt,
        &[b'/'; 1025],
        1024,
        ".../////////////////////////////////////////////////////////////\n                                                               ^",
    )
}
