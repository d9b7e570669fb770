// Name lists and paths at their limits, and the order of the grounds.
use chain::{Axis, Chain, Step, Test};
use names::NameList;
use paths::{read, write};
use refusal::{Ground, Refusal};
use std::process::Abort;
use std::test::Fail;

const NAME_OF_32: &[u8] = b"abcdefghijklmnopqrstuvwxyz012345\n";

const NAME_OF_33: &[u8] = b"abcdefghijklmnopqrstuvwxyz0123456\n";

fn good_list(rt: &impl Abort, list: &[u8]) {
    assert!(rt; NameList::new(list).is_ok());
}

fn bad_list(rt: &impl Abort, list: &[u8], place: usize) {
    assert_eq!(rt; NameList::new(list).err(), Some(Ground::BadLine.at(place)));
}

#[test]
fn lists(rt: HostRuntime) {
    good_list(&rt, b"");
    good_list(&rt, b"a\nb\n");
    good_list(&rt, b"A.b-c_9\n_\n");
    good_list(&rt, NAME_OF_32);
    bad_list(&rt, NAME_OF_33, 0);
    bad_list(&rt, b"a", 0);
    bad_list(&rt, b"\n", 0);
    bad_list(&rt, b"a\na\n", 2);
    bad_list(&rt, b"a\nb", 2);
    bad_list(&rt, b"a\n\nb\n", 2);
    bad_list(&rt, b"a\n1b\n", 2);
    bad_list(&rt, b"a\nb c\n", 2);
    bad_list(&rt, b"a\r\n", 0);
    bad_list(&rt, b"ab\na\nab\na\n", 5);
}

const LETTERS: &[u8] = b"abcdefghijklmnopqrstuvwxyz";

// As many names of three bytes as are wanted, all different.
fn many(rt: &HostRuntime, count: usize) -> Result<Vec<u8>, Fail> {
    let mut list = Vec::new(rt.alloc());
    for n in 0..count {
        let name = [
            LETTERS[n / 52 % 26],
            LETTERS[n / 2 % 26],
            LETTERS[n % 2],
            b'\n',
        ];
        list.extend_from_slice(&name)?;
    }
    Ok(list)
}

#[test]
fn many_names(rt: HostRuntime) -> Result<(), Fail> {
    good_list(&rt, &many(&rt, 1024)?);
    bad_list(&rt, &many(&rt, 1025)?, 4096);
    Ok(())
}

#[test]
fn look_ups(rt: HostRuntime) -> Result<(), Fail> {
    assert_eq!(rt; NameList::empty().number(b"a"), None);
    let names = NameList::new(b"a\nbc\n")?;
    assert_eq!(rt; names.len(), 2);
    assert_eq!(rt; names.number(b"a"), Some(1));
    assert_eq!(rt; names.number(b"bc"), Some(2));
    assert_eq!(rt; names.number(b"b"), None);
    assert_eq!(rt; names.number(b""), None);
    assert_eq!(rt; names.name(2), Some(b"bc".as_slice()));
    assert_eq!(rt; names.name(0), None);
    assert_eq!(rt; names.name(3), None);
    Ok(())
}

fn refused(rt: &impl Abort, list: &[u8], text: &[u8], refusal: Refusal) {
    assert_eq!(rt; read(list, text), Err(refusal));
}

#[test]
fn places(rt: HostRuntime) {
    refused(&rt, b"a\n", b"", Ground::NotPath.at(0));
    refused(&rt, b"a\n", b"/a/", Ground::NotPath.at(3));
    refused(&rt, b"a\n", b"/a\n", Ground::NotPath.at(2));
    refused(&rt, b"a\n", b"/a::b::c", Ground::NotPath.at(5));
    refused(&rt, b"a\n", b"/child::.", Ground::NotPath.at(8));
    refused(&rt, b"a\n", b"/up::a", Ground::UnknownAxis.at(1));
    refused(
        &rt,
        b"a\n",
        b"/abcdefghijklmnopqrstuvwxyz0123456",
        Ground::LongName.at(1),
    );
    refused(&rt, b"a\n", b"/a/b", Ground::UnknownName.at(3));
    refused(
        &rt,
        b"a\n",
        b"/./././././././././././././././.",
        Ground::TooManySteps.at(30),
    );
    refused(&rt, b"a\na\n", b"", Ground::BadLine.at(2));
    refused(&rt, b"a\na\n", &[b'/'; 1025], Ground::BadLine.at(2));
    refused(&rt, b"a\n", &[b'/'; 1025], Ground::LongText.at(1024));
    refused(&rt, b"a\n", &[b'/'; 1024], Ground::NotPath.at(2));
    assert!(rt; read(NAME_OF_32, b"/abcdefghijklmnopqrstuvwxyz012345").is_ok());
}

fn chain_of(steps: &[Step]) -> Result<Chain, Fail> {
    steps
        .iter()
        .try_fold(Chain::new(), |chain, step| chain.with(*step))
        .ok_or_else(|| Fail::new("the chain has too many steps"))
}

const CHILD_1: Step = Step {
    axis: Axis::Child,
    test: Test::Name(1),
};

const SELF_2: Step = Step {
    axis: Axis::Itself,
    test: Test::Name(2),
};

const ANY_PARENT: Step = Step {
    axis: Axis::Parent,
    test: Test::AnyNode,
};

#[test]
fn chains(rt: HostRuntime) -> Result<(), Fail> {
    assert_eq!(rt; read(b"a\nb\n", b"/")?, Chain::new());
    assert_eq!(rt;
        read(b"a\nb\n", b"/a/self::b/..")?,
        chain_of(&[CHILD_1, SELF_2, ANY_PARENT])?
    );
    assert!(rt; read(b"a\nb\n", b"/a")? != read(b"a\nb\n", b"/b")?);
    Ok(())
}

fn not_written(rt: &impl Abort, list: &[u8], chain: &Chain, out: &mut [u8], refusal: Refusal) {
    assert_eq!(rt; write(list, chain, out), Err(refusal));
}

// A bad list comes before a name that is not in it, and that before too few bytes; what is refused writes nothing.
#[test]
fn written(rt: HostRuntime) -> Result<(), Fail> {
    let chain = chain_of(&[ANY_PARENT, CHILD_1, SELF_2])?;
    let mut out = [b'x'; 48];
    not_written(&rt, b"a", &chain, &mut [], Ground::BadLine.at(0));
    not_written(&rt, b"", &chain, &mut [], Ground::UnknownName.at(1));
    not_written(&rt, b"a\n", &chain, &mut [], Ground::UnknownName.at(2));
    not_written(
        &rt,
        b"a\nb\n",
        &chain,
        &mut out[..31],
        Ground::TooSmall.at(0),
    );
    assert_eq!(rt; &out, &[b'x'; 48]);
    assert_eq!(rt; write(b"a\nb\n", &chain, &mut out)?, 32);
    assert_eq!(rt; &out, b"/parent::node()/child::a/self::bxxxxxxxxxxxxxxxx");
    Ok(())
}
