// A node as a line of the outline, with its name.
ghost use Rattle.std.specs.Prelude.{Some};
ghost use Rattle.names.specs.Listed.{listed};
ghost use Rattle.outline.specs.Lines.{margin, shown_named_line};

use super::label::Label;
use super::line::{EndWords, Line};
use document::Kind;
use names::NameList;
use std::fmt;

// A line with the names that it is shown by.
#[derive(Clone, Copy)]
pub struct NamedLine<'a> {
    pub line: Line,
    pub names: NameList<'a>,
}

impl fmt::Display for NamedLine<'_> {
    ghost output = { λ l. Some (shown_named_line (listed l.names) l.line) };

    #[tactic(auto, using(crate::proofs::Words::element_line, crate::proofs::Words::text_line))]
    fn fmt<W: fmt::Write>(&self, f: &mut fmt::Formatter<W>) -> fmt::Result {
        let line = self.line;
        let margin = Margin(line.level);
        let node = line.node;
        let name = Label {
            number: line.name,
            names: self.names,
        };
        let end = EndWords(line.end);
        write!(f, "{margin}{node} ")?;
        // A text has no name.
        match line.kind {
            Kind::Element => write!(f, "element {name} {end}"),
            Kind::Text => write!(f, "text {end}"),
        }
    }
}

// Two blanks a level. The width of a format pads them too, and takes longer where a line is hardly indented, as most are.
#[derive(Clone, Copy)]
struct Margin(u8);

impl fmt::Display for Margin {
    ghost output = { λ m. Some (margin m.0) };

    fn fmt<W: fmt::Write>(&self, f: &mut fmt::Formatter<W>) -> fmt::Result {
        for _eight in 0..self.0 / 8 {
            f.write_str("                ")?;
        }
        for _level in 0..self.0 % 8 {
            f.write_str("  ")?;
        }
        Ok(())
    }
}
