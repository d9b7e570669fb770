// A document as its nodes in the order in which they begin, the calls that build it, and the laws of both.
#![tactic(auto)]

mod generic;
mod growing;
mod readable;
mod theorems;

pub use generic::{open_elements, perform};
pub use growing::Growing;
pub use readable::Readable;
pub use theorems::{calls_stand, documents_stand};

#[derive(Clone, Copy, PartialEq, Eq, Debug)]
pub enum Kind {
    Element,
    Text,
}

// A node: its parent, or none for node 0; its name number, 0 for a text; how many nodes had ended before it, or the mark of an open one.
#[derive(Clone, Copy, PartialEq, Eq, Debug)]
pub struct Node {
    // Nodes lie in lent memory, so a parent is its number and no pointer.
    pub parent: Option<u32>,
    pub kind: Kind,
    // Beside the kind, and 0 for a text: the definitions, the laws and the question `name` speak of it so.
    pub name: u16,
    // No option: the ends of open nodes are compared too, and `None` would come before every end.
    pub end: u32,
}

// The end of an open element.
pub const OPEN_MARK: u32 = 4_294_967_295;

// A document has at most so many nodes.
pub const MAX_NODES: usize = 4096;

// Levels are counted from 0.
pub const MAX_LEVEL: u8 = 63;

// The name numbers of elements are 1 to this.
pub const MAX_NAME: u16 = 65_534;

// A call that builds a document, with the name number of the element that it opens or closes.
#[derive(Clone, Copy, PartialEq, Eq, Debug)]
pub enum Call {
    Open(u16),
    Text,
    Close(u16),
}
