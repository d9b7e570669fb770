// `batch path`: the long form of a path text.
use super::failure::{Failure, Note};
use super::list;
use paths::{MAX_FORM, rewrite};
use std::io::Write;

pub(super) fn path(rt: &HostRuntime, file: &str, text: &str) -> Result<(), Failure> {
    let bytes = list::read(rt, file)?;
    let names = list::load(rt, &bytes)?;
    let text = text.as_bytes();
    // Lent to the writer, which answers how many of the bytes are the form.
    let mut form = [0; MAX_FORM];
    let len = rewrite(&names, text, &mut form).map_err(|refusal| {
        let place = refusal.place;
        Failure::pointed(rt, refusal, text, place, note(text, place))
    })?;
    // `path_cases` writes a form in the same way; programs share no crate of their own.
    let mut out = rt.stdout();
    out.write_all(&form[..len])?;
    out.write_all(b"\n")?;
    Ok(())
}

// Whether the text has nothing but a line end from the place on.
fn note(text: &[u8], place: usize) -> Option<Note> {
    match text.get(place..)? {
        [b'\n'] | [b'\r', b'\n'] => Some(Note::LineEnd),
        _ => None,
    }
}
