// A place in a text, shown to people as two lines: the text, and below it a caret under the byte at the place.
#![tactic(auto)]

ghost use Rattle.std.specs.Prelude.{◌≡◌, take, drop, Some};
ghost use Rattle.pointer.specs.Pointed.{column_of, columns, blanks, dots, pointed, CaretBelow, LinesFit};

use std::fmt;

// So many bytes of the text are shown at most.
const MOST_SHOWN: usize = 76;

// So many of them stand before the place at most.
const MOST_BEFORE: usize = 60;

// The place counts from 0; the text's length as the place is its end.
#[derive(Clone, Copy)]
pub struct Pointer<'a> {
    pub text: &'a [u8],
    pub place: usize,
}

impl fmt::Display for Pointer<'_> {
    ghost output = { λ p. Some (pointed p.text.now p.place) };

    #[tactic(auto, using(crate::proofs::Pieces::joined))]
    fn fmt<W: fmt::Write>(&self, f: &mut fmt::Formatter<W>) -> fmt::Result {
        let start = self.place.saturating_sub(MOST_BEFORE);
        let rest = tail(self.text, start);
        let before = dots(start > 0);
        let line = Columns(front(rest, MOST_SHOWN));
        let after = dots(rest.len() > MOST_SHOWN);
        let blanks = Blanks(before.len() + (self.place - start));
        write!(f, "{before}{line}{after}\n{blanks}^")
    }
}

// The bytes of a text from a place on.
fn tail(text: &[u8], place: usize) -> &[u8]
    ensures { result.now ≡ drop place text.now }
{
    text.get(place..).unwrap_or_default()
}

// So many bytes of a text, from its first on, or all.
fn front(text: &[u8], most: usize) -> &[u8]
    ensures { result.now ≡ take most text.now }
{
    text.get(..most).unwrap_or(text)
}

// Three dots, where bytes are cut off.
fn dots(cut: bool) -> &'static str
    ensures { result.now ≡ dots cut }
{
    if cut { "..." } else { "" }
}

// Bytes, one column each; the library's escapes of a byte take several.
#[derive(Clone, Copy)]
struct Columns<'a>(&'a [u8]);

impl fmt::Display for Columns<'_> {
    ghost output = { λ c. Some (columns c.0.now) };

    fn fmt<W: fmt::Write>(&self, f: &mut fmt::Formatter<W>) -> fmt::Result {
        for byte in self.0 {
            f.write_char(column(*byte))?;
        }
        Ok(())
    }
}

// The column of a byte: a byte that is no printable character of ASCII is shown as '?'.
fn column(byte: u8) -> char
    ensures { result ≡ column_of byte }
{
    match byte {
        b' '..=b'~' => char::from(byte),
        _ => '?',
    }
}

// As many blanks. The width of a format pads them too, and takes longer where they are few.
#[derive(Clone, Copy)]
struct Blanks(usize);

impl fmt::Display for Blanks {
    ghost output = { λ b. Some (blanks b.0) };

    fn fmt<W: fmt::Write>(&self, f: &mut fmt::Formatter<W>) -> fmt::Result {
        for _eight in 0..self.0 / 8 {
            f.write_str("        ")?;
        }
        for _blank in 0..self.0 % 8 {
            f.write_str(" ")?;
        }
        Ok(())
    }
}

// The caret stands below the byte at the place, or right behind the text that ends there, and no line is over 82 columns.
pub fn caret_stands()
    ensures below { CaretBelow }
    ensures fit { LinesFit }
{}
