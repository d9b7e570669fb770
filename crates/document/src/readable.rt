// What a document can be asked, whatever memory it is kept in.
ghost use Rattle.std.specs.Prelude.{◌≡◌, List, length};
ghost use Rattle.document.specs.declared.Node.{Node};
ghost use Rattle.document.specs.Document.{asked, parent_of, kind_of, name_of, level_of, end_of, innermost as innermost_of};
ghost use Rattle.document.specs.Calls.{Grown};

use super::Kind;
use refusal::Refusal;

// The questions about a node are methods of their own, since each answers another type.
pub trait Readable {
    // The nodes that the value means, in the order in which they begin.
    ghost nodes: { Self → List Node };

    fn count(&self) -> u32
        ensures { result ≡ length (nodes self.now) };

    // The parent of a node, none for node 0.
    fn parent(&self, node: u32) -> Result<Option<u32>, Refusal>
        ensures { result ≡ asked (nodes self.now) node (parent_of (nodes self.now)) };

    fn kind(&self, node: u32) -> Result<Kind, Refusal>
        ensures { result ≡ asked (nodes self.now) node (kind_of (nodes self.now)) };

    // The name number of a node, 0 for a text.
    fn name(&self, node: u32) -> Result<u16, Refusal>
        ensures { result ≡ asked (nodes self.now) node (name_of (nodes self.now)) };

    fn level(&self, node: u32) -> Result<u8, Refusal>
        ensures { result ≡ asked (nodes self.now) node (level_of (nodes self.now)) };

    // The end number of a node, the open mark for an open one.
    fn end(&self, node: u32) -> Result<u32, Refusal>
        ensures { result ≡ asked (nodes self.now) node (end_of (nodes self.now)) };

    // The innermost open element.
    fn innermost(&self) -> Option<u32>
        ensures { result ≡ innermost_of (nodes self.now) };

    // The nodes are what calls leave.
    ghost grown: { (s : Self) → Grown (nodes s) };
}
