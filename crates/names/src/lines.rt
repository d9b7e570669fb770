// The lines of a name list, each ended by byte 10, and the first of them that is bad.
ghost use Rattle.std.specs.Prelude.{◌≡◌, length};
ghost use Rattle.std.specs.Iterator.{YieldsFirstRef, item_count};
ghost use Rattle.names.specs.Names.{is_name, member};
ghost use Rattle.names.specs.Lists.{first_bad, good, lines};

use super::classes::{begins_name, continues_name};

// A list has at most so many names.
const MOST_NAMES: usize = 1024;

// A name of a list has at most so many bytes.
pub const MAX_NAME_BYTES: usize = 32;

// The ended lines of a text, in their order.
#[derive(Drop)]
pub struct Lines<'a>(pub &'a [u8]);

impl<'a> Iterator for Lines<'a> {
    type Item = &'a [u8];

    ghost next_gives = { YieldsFirstRef (λ s. lines s.0.now) };

    ghost remaining = { item_count (λ s. lines s.0.now) };

    fn next(&mut self) -> Option<&'a [u8]> {
        let end = self.0.iter().position(|byte| *byte == b'\n')?;
        let line = &self.0[..end];
        self.0 = &self.0[end + 1..];
        Some(line)
    }
}

// Whether a line is a name, of whatever length.
pub fn is_name(line: &[u8]) -> bool
    ensures { result ≡ is_name line.now }
{
    match line {
        [] => false,
        [first, rest @ ..] => begins_name(*first) && rest.iter().all(|byte| continues_name(*byte)),
    }
}

// Whether one of the ended lines of a text is `word`.
pub fn has_line(text: &[u8], word: &[u8]) -> bool
    ensures { result ≡ member word.now (lines text.now) }
{
    Lines(text).any(|line| line == word)
}

// Whether a line may be the next of a list, after a text of `count` lines.
fn may_follow(before: &[u8], count: usize, line: &[u8]) -> bool
    requires { count ≡ length (lines before.now) }
    ensures { result ≡ good (lines before.now) line.now }
{
    count < MOST_NAMES && line.len() <= MAX_NAME_BYTES && is_name(line) && !has_line(before, line)
}

// The place of the first byte of the first bad line.
pub fn first_bad(text: &[u8]) -> Option<usize>
    ensures { result ≡ first_bad text.now }
{
    // The place of a line is what those before it take; the iterator yields lines and no places.
    let mut at = 0;
    for (count, line) in Lines(text).enumerate() {
        if !may_follow(&text[..at], count, line) {
            return Some(at);
        }
        at += line.len() + 1;
    }
    (at < text.len()).then_some(at)
}
