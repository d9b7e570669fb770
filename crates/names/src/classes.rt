// The classes of bytes, by a table.
ghost use Rattle.std.specs.Prelude.{◌≡◌};
ghost use Rattle.names.specs.Classes.{class_of, code_of, begins, goes};

// What a byte is to a name: it begins one, only continues one, is one of / * : ( ), or none of these.
#[derive(Clone, Copy, PartialEq, Eq, Debug)]
pub enum ByteClass {
    Other,
    Begins,
    Continues,
    Mark,
}

// For the table. It is a `static`, since a proof can compute a look-up in it, and not in a `const` of so many enum values.
use ByteClass::{Begins as B, Continues as C, Mark as M, Other as O};

#[rattlefmt::skip]
static CLASSES: [ByteClass; 256] = [
    O, O, O, O, O, O, O, O, O, O, O, O, O, O, O, O,
    O, O, O, O, O, O, O, O, O, O, O, O, O, O, O, O,
    O, O, O, O, O, O, O, O, M, M, M, O, O, C, C, M,
    C, C, C, C, C, C, C, C, C, C, M, O, O, O, O, O,
    O, B, B, B, B, B, B, B, B, B, B, B, B, B, B, B,
    B, B, B, B, B, B, B, B, B, B, B, O, O, O, O, B,
    O, B, B, B, B, B, B, B, B, B, B, B, B, B, B, B,
    B, B, B, B, B, B, B, B, B, B, B, O, O, O, O, O,
    O, O, O, O, O, O, O, O, O, O, O, O, O, O, O, O,
    O, O, O, O, O, O, O, O, O, O, O, O, O, O, O, O,
    O, O, O, O, O, O, O, O, O, O, O, O, O, O, O, O,
    O, O, O, O, O, O, O, O, O, O, O, O, O, O, O, O,
    O, O, O, O, O, O, O, O, O, O, O, O, O, O, O, O,
    O, O, O, O, O, O, O, O, O, O, O, O, O, O, O, O,
    O, O, O, O, O, O, O, O, O, O, O, O, O, O, O, O,
    O, O, O, O, O, O, O, O, O, O, O, O, O, O, O, O,
];

// The class of a byte.
pub fn class(byte: u8) -> ByteClass
    ensures { code_of result ≡ class_of byte }
{
    CLASSES[byte as usize]
}

// Whether a byte begins a name.
pub fn begins_name(byte: u8) -> bool
    ensures { result ≡ begins byte }
{
    class(byte) == ByteClass::Begins
}

// Whether a name goes on with a byte.
pub fn continues_name(byte: u8) -> bool
    ensures { result ≡ goes byte }
{
    matches!(class(byte), ByteClass::Begins | ByteClass::Continues)
}
