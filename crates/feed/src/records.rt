// One feed record: code, 0, and the name number, lowest byte first.
ghost use Rattle.std.specs.Prelude.{◌≡◌, ◌↔◌, Ok};
ghost use Rattle.std.specs.Option.{ok_or};
ghost use Rattle.refusal.specs.declared.Ground.TheVariants.{BadRecord};
ghost use Rattle.refusal.specs.Refusals.{refusal};
ghost use Rattle.feed.specs.Records.{encoded, decoded};

use document::Call;
use refusal::{Ground, Refusal};

// The length of a record.
pub const RECORD_BYTES: usize = 4;

// The bytes of a call's record. No `From` and no `TryFrom` below, since a call and its bytes are types of other crates.
pub fn encode(call: Call) -> [u8; RECORD_BYTES]
    ensures { result ≡ encoded call }
{
    // The codes are the format's; in code a call is an enum.
    let (code, name) = match call {
        Call::Open(name) => (1, name),
        Call::Text => (2, 0),
        Call::Close(name) => (3, name),
    };
    let [low, high] = name.to_le_bytes();
    [code, 0, low, high]
}

// The call that the record of this index stands for. The bytes that are accepted are those that `encode` gives, its codes too.
pub fn decode(index: usize, bytes: &[u8]) -> Result<Call, Refusal>
    ensures value { result ≡ ok_or (decoded bytes.now) (refusal BadRecord index) }
    ensures exact { (c : Call) → (result ≡ Ok c) ↔ (bytes.now ≡ encoded c) }
{
    match bytes {
        [1, 0, low, high] => Ok(Call::Open(u16::from_le_bytes([*low, *high]))),
        [2, 0, 0, 0] => Ok(Call::Text),
        [3, 0, low, high] => Ok(Call::Close(u16::from_le_bytes([*low, *high]))),
        _ => Err(Ground::BadRecord.at(index)),
    }
}
