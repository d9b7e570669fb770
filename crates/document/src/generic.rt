// What every document can do, proved from the interfaces alone.
ghost use Rattle.std.specs.Prelude.{◌≡◌};
ghost use Rattle.document.specs.Document.{open_count};
ghost use Rattle.document.specs.Laws.{Performed};

use super::{Call, Growing, Readable};
use refusal::Refusal;

// Makes one call. A call is read from bytes, so it is a value of an enum and no closure.
pub fn perform<D: Growing>(document: &mut D, call: Call) -> Result<u32, Refusal>
    ensures { Performed D.Readable.nodes D.Growing.room document.old call result document.new }
{
    match call {
        Call::Open(name) => document.open(name),
        Call::Text => document.text(),
        Call::Close(name) => document.close(name),
    }
}

// How many elements are open: the innermost one and its ancestors.
pub fn open_elements<D: Readable>(document: &D) -> u32
    ensures { result ≡ open_count (D.Readable.nodes document.now) }
{
    let Some(innermost) = document.innermost() else {
        return 0;
    };
    u32::from(document.level(innermost).unwrap()) + 1
}
