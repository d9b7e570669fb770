// Why a call is refused, and where: twenty grounds, each with its number and its layer.
#![tactic(auto)]

ghost use Rattle.std.specs.Prelude.{◌≡◌};
ghost use Rattle.refusal.specs.Refusals.{number_of, layer_of, refusal};

use std::fmt;
use thiserror::Error;

// The parts of the system that refuse.
#[derive(Clone, Copy, PartialEq, Eq, Debug)]
pub enum Layer {
    Source,
    List,
    Path,
    Names,
    Table,
    Run,
    Feed,
}

// The grounds in the order of their numbers, each with its words.
#[derive(Clone, Copy, PartialEq, Eq, Debug, Error)]
pub enum Ground {
    #[error("the document has memory for no node, or for more than 4,096")]
    BadCapacity = 1,
    #[error("the document has ended: node 0 is closed")]
    Ended,
    #[error("the document has no node yet, and only an open can begin it")]
    NotBegun,
    #[error("an element's name number is 1 to 65,534")]
    BadName,
    #[error("the node would lie deeper than level 63")]
    TooDeep,
    #[error("the document has no room for another node")]
    Full,
    #[error("the close does not name the innermost open element")]
    OtherName,
    #[error("the document has no node of this number")]
    NoNode,
    #[error("the list's entry is not above the one before it, or is no node")]
    BadEntry,
    #[error("the memory given has too few places or bytes")]
    TooSmall,
    #[error("the path's text is over 1,024 bytes")]
    LongText,
    #[error("the text is not a path from here on")]
    NotPath,
    #[error("the axis word is unknown")]
    UnknownAxis,
    #[error("the name is over 32 bytes")]
    LongName,
    #[error("the name is not in the name list")]
    UnknownName,
    #[error("the path has more than fifteen steps")]
    TooManySteps,
    #[error("the line of the name list is not a new name of 1 to 32 bytes and a line end, or is one too many")]
    BadLine,
    #[error("the bytes are not a saved document")]
    BadTable,
    #[error("the run was set up over a document that had nodes")]
    NotEmpty,
    #[error("the feed record is not an open, a text without a name, or a close, in four bytes")]
    BadRecord,
}

// A refusal carries its ground and its place, which counts from 0.
#[derive(Clone, Copy, PartialEq, Eq, Debug, Error)]
#[error("{number} {layer} {place}: {ground}", number = .ground.number(), layer = .ground.layer())]
pub struct Refusal {
    pub ground: Ground,
    pub place: usize,
}

impl Ground {
    pub fn number(self) -> u8
        ensures { result ≡ number_of self }
    {
        self as u8
    }

    pub fn layer(self) -> Layer
        ensures { result ≡ layer_of self }
    {
        match self {
            Ground::BadCapacity
            | Ground::Ended
            | Ground::NotBegun
            | Ground::BadName
            | Ground::TooDeep
            | Ground::Full
            | Ground::OtherName
            | Ground::NoNode => Layer::Source,
            Ground::BadEntry | Ground::TooSmall => Layer::List,
            Ground::LongText
            | Ground::NotPath
            | Ground::UnknownAxis
            | Ground::LongName
            | Ground::UnknownName
            | Ground::TooManySteps => Layer::Path,
            Ground::BadLine => Layer::Names,
            Ground::BadTable => Layer::Table,
            Ground::NotEmpty => Layer::Run,
            Ground::BadRecord => Layer::Feed,
        }
    }

    // The refusal on this ground at a place.
    pub fn at(self, place: usize) -> Refusal
        ensures { result ≡ refusal self place }
    {
        Refusal {
            ground: self,
            place,
        }
    }
}

// By hand: a layer is no error, and a derive with a message for each variant is no plainer than this match.
impl fmt::Display for Layer {
    fn fmt<W: fmt::Write>(&self, f: &mut fmt::Formatter<W>) -> fmt::Result {
        f.write_str(match self {
            Layer::Source => "source",
            Layer::List => "list",
            Layer::Path => "path",
            Layer::Names => "names",
            Layer::Table => "table",
            Layer::Run => "run",
            Layer::Feed => "feed",
        })
    }
}
