// How a document grows, whatever memory it is kept in.
ghost use Rattle.std.specs.Prelude.{ℕ};
ghost use Rattle.document.specs.declared.Call.TheVariants.{Open, Text, Close};
ghost use Rattle.document.specs.Calls.{Called};

use super::Readable;
use refusal::Refusal;

pub trait Growing: Readable {
    // For how many nodes there is memory.
    ghost room: { Self → ℕ };

    // Adds an element under the innermost open one, and answers its number.
    fn open(&mut self, name: u16) -> Result<u32, Refusal>
        ensures { Called Self.Readable.nodes room self.old (Open name) result self.new };

    // Adds a text in the same way.
    fn text(&mut self) -> Result<u32, Refusal>
        ensures { Called Self.Readable.nodes room self.old Text result self.new };

    // Gives the innermost open element the next end number, and answers its node number.
    fn close(&mut self, name: u16) -> Result<u32, Refusal>
        ensures { Called Self.Readable.nodes room self.old (Close name) result self.new };
}
