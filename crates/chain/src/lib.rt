// What a path says: axes, tests, steps, and chains of at most fifteen steps.
#![tactic(auto)]

ghost use Rattle.std.specs.Prelude.{◌≡◌};
ghost use Rattle.chain.specs.Axes.{code_of, word_of, axis_of};

mod chain;
mod theorems;

pub use chain::{Chain, MAX_STEPS};
pub use theorems::{axes_stand, chains_stand};

// The axes in the order of their codes, from 1.
#[derive(Clone, Copy, PartialEq, Eq, Debug)]
pub enum Axis {
    Child = 1,
    Parent,
    Descendant,
    Ancestor,
    DescendantOrSelf,
    AncestorOrSelf,
    Following,
    Preceding,
    FollowingSibling,
    PrecedingSibling,
    Itself,
}

// What a step asks of a node on its axis.
#[derive(Clone, Copy, PartialEq, Eq, Debug)]
pub enum Test {
    Name(u16),
    AnyElement,
    AnyText,
    AnyNode,
}

// A step of a path: along an axis, to the nodes there that pass a test.
#[derive(Clone, Copy, PartialEq, Eq, Debug)]
pub struct Step {
    pub axis: Axis,
    pub test: Test,
}

impl Axis {
    // In the order of their codes.
    const ALL: [Axis; 11] = [
        Axis::Child,
        Axis::Parent,
        Axis::Descendant,
        Axis::Ancestor,
        Axis::DescendantOrSelf,
        Axis::AncestorOrSelf,
        Axis::Following,
        Axis::Preceding,
        Axis::FollowingSibling,
        Axis::PrecedingSibling,
        Axis::Itself,
    ];

    pub fn code(self) -> u8
        ensures { result ≡ code_of self }
    {
        self as u8
    }

    pub fn word(self) -> &'static [u8]
        ensures { result.now ≡ word_of self }
    {
        match self {
            Axis::Child => b"child",
            Axis::Parent => b"parent",
            Axis::Descendant => b"descendant",
            Axis::Ancestor => b"ancestor",
            Axis::DescendantOrSelf => b"descendant-or-self",
            Axis::AncestorOrSelf => b"ancestor-or-self",
            Axis::Following => b"following",
            Axis::Preceding => b"preceding",
            Axis::FollowingSibling => b"following-sibling",
            Axis::PrecedingSibling => b"preceding-sibling",
            Axis::Itself => b"self",
        }
    }

    // The axis that the word names, if it names one; an option, since only the caller knows the place of a refusal.
    pub fn of_word(word: &[u8]) -> Option<Axis>
        ensures { result ≡ axis_of word.now }
    {
        let axis = Axis::ALL.iter().find(|axis| axis.word() == word)?;
        Some(*axis)
    }
}
