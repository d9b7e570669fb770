// A node as a line of the outline.
ghost use Rattle.std.specs.Prelude.{◌≡◌, Some};
ghost use Rattle.document.specs.Document.{asked};
ghost use Rattle.outline.specs.Lines.{line_of, shown_end, shown_line};

use super::named_line::NamedLine;
use document::{Kind, OPEN_MARK, Readable};
use names::NameList;
use refusal::Refusal;
use std::fmt;

// What the outline shows of a node.
#[derive(Clone, Copy, PartialEq, Eq, Debug)]
pub struct Line {
    pub node: u32,
    pub level: u8,
    // As the questions of a document answer them: 0 is the name of a text, and the open mark the end of an open node.
    pub kind: Kind,
    pub name: u16,
    pub end: u32,
}

impl Line {
    pub fn of<D: Readable>(document: &D, node: u32) -> Result<Line, Refusal>
        ensures { result ≡ asked (D.Readable.nodes document.now) node (line_of (D.Readable.nodes document.now)) }
    {
        Ok(Line {
            node,
            level: document.level(node)?,
            kind: document.kind(node)?,
            name: document.name(node)?,
            end: document.end(node)?,
        })
    }
}

// Without a list, a name is its number.
impl fmt::Display for Line {
    ghost output = { λ l. Some (shown_line l) };

    #[tactic(auto, using(crate::proofs::Words::no_names))]
    fn fmt<W: fmt::Write>(&self, f: &mut fmt::Formatter<W>) -> fmt::Result {
        let line = NamedLine {
            line: *self,
            names: NameList::empty(),
        };
        write!(f, "{line}")
    }
}

// The end number, or that the node is open. A number, as the question of a document answers it.
#[derive(Clone, Copy)]
pub(super) struct EndWords(pub(super) u32);

impl fmt::Display for EndWords {
    ghost output = { λ e. Some (shown_end e.0) };

    fn fmt<W: fmt::Write>(&self, f: &mut fmt::Formatter<W>) -> fmt::Result {
        match self.0 {
            OPEN_MARK => write!(f, "open"),
            end => write!(f, "end {end}"),
        }
    }
}
