// Who lends memory to a table knows what it holds afterwards.
ghost use Rattle.std.specs.Prelude.{◌≡◌, [], length};
ghost use Rattle.document.specs.declared.Call.TheVariants.{Open};
ghost use Rattle.document.specs.Calls.{answered, after};
ghost use Rattle.record_table.specs.Records.{written};

use document::Growing;
use record_table::{Record, RecordTable};
use refusal::Refusal;

// Opens the first element of a document, and leaves its record in the memory, or the memory as it was.
pub fn open_one(memory: &mut [Record], name: u16) -> Result<u32, Refusal>
    ensures answer { result ≡ answered (length memory.old) [] (Open name) }
    ensures memory { memory.new ≡ written memory.old result (after (length memory.old) [] (Open name)) }
{
    let mut table = RecordTable::new(memory);
    table.open(name)
}
