// The sentence that says what was read.
ghost use Rattle.std.specs.Prelude.{◌≡◌, length, Some};
ghost use Rattle.document.specs.Document.{open_count};
ghost use Rattle.outline.specs.Sentences.{things, sentence};

use document::{Readable, open_elements};
use std::fmt;

// How many records were accepted, and what the document then holds.
#[derive(Clone, Copy, PartialEq, Eq, Debug)]
pub struct Summary {
    pub records: usize,
    pub nodes: u32,
    pub open: u32,
}

impl Summary {
    pub fn of<D: Readable>(document: &D, records: usize) -> Summary
        ensures records { result.records ≡ records }
        ensures nodes { result.nodes ≡ length (D.Readable.nodes document.now) }
        ensures open { result.«open» ≡ open_count (D.Readable.nodes document.now) }
    {
        Summary {
            records,
            nodes: document.count(),
            open: open_elements(document),
        }
    }
}

impl fmt::Display for Summary {
    ghost output = { λ s. Some (sentence s) };

    fn fmt<W: fmt::Write>(&self, f: &mut fmt::Formatter<W>) -> fmt::Result {
        let records = Things(self.records, "record", "records");
        let nodes = Things(self.nodes as usize, "node", "nodes");
        let open = Things(self.open as usize, "element", "elements");
        write!(f, "Read {records}: {nodes}, {open} open.")
    }
}

// A number of things, with their name in the singular and in the plural.
#[derive(Clone, Copy)]
struct Things(usize, &'static str, &'static str);

impl fmt::Display for Things {
    ghost output = { λ t. Some (things t.0 t.1.now t.2.now) };

    fn fmt<W: fmt::Write>(&self, f: &mut fmt::Formatter<W>) -> fmt::Result {
        let Things(count, one, many) = *self;
        let name = if count == 1 { one } else { many };
        write!(f, "{count} {name}")
    }
}
