// A name list by its text, its names by number, and their numbers.
ghost use Rattle.std.specs.Prelude.{◌≡◌, [], length, Some, None, MatchOption, MatchResult};
ghost use Rattle.names.specs.Lists.{number_of, name_of};
ghost use Rattle.names.specs.Listed.{listed, ListOf, RefusedAt};

use super::NameList;
use crate::lines::{Lines, first_bad};
use refusal::{Ground, Refusal};

impl<'a> NameList<'a> {
    // A list of no names.
    pub fn empty() -> NameList<'a>
        ensures { listed result ≡ [] }
    {
        NameList { bytes: &[] }
    }

    // The list of a text; or the refusal has the place of the first bad line.
    pub fn new(bytes: &'a [u8]) -> Result<NameList<'a>, Refusal>
        ensures { MatchResult result (λ names. ListOf bytes.now (listed names)) (λ e. RefusedAt bytes.now e) }
    {
        match first_bad(bytes) {
            None => Ok(NameList { bytes }),
            Some(place) => Err(Ground::BadLine.at(place)),
        }
    }

    // How many names there are.
    pub fn len(&self) -> usize
        ensures { result ≡ length (listed self.now) }
    {
        Lines(self.bytes).count()
    }

    // The number of a name; the first name's is 1, and no list has more than 1,024.
    pub fn number(&self, word: &[u8]) -> Option<u16>
        ensures { result ≡ number_of (listed self.now) word.now }
    {
        let index = Lines(self.bytes).position(|line| line == word)?;
        Some(index as u16 + 1)
    }

    // The name of a number.
    pub fn name(&self, number: u16) -> Option<&'a [u8]>
        ensures { MatchOption result (name_of (listed self.now) number ≡ None) (λ n. name_of (listed self.now) number ≡ Some n.now) }
    {
        let index = number.checked_sub(1)?;
        Lines(self.bytes).nth(usize::from(index))
    }
}
