// Why the program ends with status 1, as the lines that it prints.
use super::USAGE;
use pointer::Pointer;
use refusal::Refusal;
use std::alloc::AllocError;
use std::{fmt, io};
use thiserror::Error;

#[derive(Debug, Drop, Error)]
pub enum Failure {
    #[error("refused: {0}")]
    Refused(#[from] Refusal),
    #[error("{0}")]
    Pointed(Pointed),
    #[error("{usage}", usage = USAGE)]
    Usage,
    #[error("batch: out of memory")]
    NoMemory(#[from(alloc)] AllocError),
    #[error("batch: {0}")]
    Io(#[from] io::Error),
    #[error("batch: the name list cannot be read: {0}")]
    List(io::Error),
}

// A refusal with the text that it points into.
#[derive(Debug, Drop)]
pub struct Pointed {
    pub refusal: Refusal,
    pub text: Vec<u8>,
    pub place: usize,
    pub note: Option<Note>,
}

// What else there is to say of the place.
#[derive(Clone, Copy, Debug, Error)]
pub enum Note {
    #[error("The text ends in a line end, which is no part of a path.")]
    LineEnd,
    #[error("This is line {0} of the name list.")]
    Line(usize),
}

impl Failure {
    // A refusal that points into a text, or that there is no memory for the text.
    pub(super) fn pointed(
        rt: &HostRuntime,
        refusal: Refusal,
        text: &[u8],
        place: usize,
        note: Option<Note>,
    ) -> Failure {
        match text.to_vec(rt.alloc()) {
            Ok(text) => Failure::Pointed(Pointed {
                refusal,
                text,
                place,
                note,
            }),
            Err(error) => Failure::NoMemory(error),
        }
    }
}

// By hand: the text ends in a note or in none, and a message of a derive has no way to say that.
impl fmt::Display for Pointed {
    fn fmt<W: fmt::Write>(&self, f: &mut fmt::Formatter<W>) -> fmt::Result {
        let refusal = self.refusal;
        let pointer = Pointer {
            text: &self.text,
            place: self.place,
        };
        write!(f, "refused: {refusal}\n{pointer}")?;
        match self.note {
            Some(note) => write!(f, "\n{note}"),
            None => Ok(()),
        }
    }
}
