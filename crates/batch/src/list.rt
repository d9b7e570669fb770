// Name lists from files.
use super::failure::{Failure, Note};
use names::NameList;
use refusal::Refusal;
use std::fs::File;
use std::io;
use std::io::Read;

// A list has at most 1,024 names of 32 bytes, each with its line end: a byte more is in a bad line, and what follows does not matter.
const LIST_BYTES: u64 = 1024 * 33 + 1;

pub(super) fn read(rt: &HostRuntime, path: &str) -> Result<Vec<u8>, Failure> {
    bytes(rt, path).map_err(Failure::List)
}

fn bytes(rt: &HostRuntime, path: &str) -> io::Result<Vec<u8>> {
    let mut bytes = Vec::new(rt.alloc());
    File::open(rt, path)?
        .take(LIST_BYTES)
        .read_to_end(&mut bytes)?;
    Ok(bytes)
}

// The list of the bytes.
pub(super) fn load<'a>(rt: &HostRuntime, bytes: &'a [u8]) -> Result<NameList<'a>, Failure> {
    NameList::new(bytes).map_err(|refusal| bad_line(rt, refusal, bytes))
}

// The refusal of a list, with its bad line.
fn bad_line(rt: &HostRuntime, refusal: Refusal, bytes: &[u8]) -> Failure {
    // Each line before the bad one is ended, so there are as many pieces as the bad line's number.
    let (before, rest) = bytes.split_at(refusal.place.min(bytes.len()));
    let number = before.split(|byte| *byte == b'\n').count();
    let line = rest.split(|byte| *byte == b'\n').next().unwrap_or_default();
    Failure::pointed(rt, refusal, line, 0, Some(Note::Line(number)))
}
