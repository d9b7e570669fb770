// A name number as text.
ghost use Rattle.std.specs.Prelude.{Some};
ghost use Rattle.names.specs.Listed.{listed};
ghost use Rattle.outline.specs.Lines.{label};

use names::NameList;
use std::{fmt, str};

// The name where the list has one of this number, else the number.
#[derive(Clone, Copy)]
pub struct Label<'a> {
    pub number: u16,
    pub names: NameList<'a>,
}

impl fmt::Display for Label<'_> {
    ghost output = { λ l. Some (label (listed l.names) l.number) };

    #[tactic(auto, using(crate::proofs::Words::listed_utf8))]
    fn fmt<W: fmt::Write>(&self, f: &mut fmt::Formatter<W>) -> fmt::Result {
        let number = self.number;
        // A name of a list is ASCII, so it is text.
        let name = self.names.name(number);
        match name.map(|name| str::from_utf8(name).unwrap()) {
            Some(name) => write!(f, "{name}"),
            None => write!(f, "{number}"),
        }
    }
}
