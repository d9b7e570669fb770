// The path reader: from a list of names and a text to a chain, in one pass.
ghost use Rattle.std.specs.Prelude.{◌≡◌, ◌+◌, ◌-◌, ◌<◌, ◌≤◌, ◌++◌, length, codes, MatchOption, ◌≢◌};
ghost use Rattle.chain.specs.Chains.{steps_of};
ghost use Rattle.names.specs.Listed.{listed};
ghost use Rattle.grammar.specs.Texts.{step_text, item_text};
ghost use Rattle.grammar.specs.Readings.{hidden, Reads, ReadAs, ReadsListed};
ghost use Rattle.grammar.specs.Verdicts.{test_at, step_at, go_on, chained};
ghost use Rattle.paths.specs.Parts.{separator_of, test_of, step_of, item_of};

use super::parts::{Separator, Tested, Written};
use super::split::{split_separator, split_step};
use chain::{Axis, Chain, MAX_STEPS, Step, Test};
use names::{MAX_NAME_BYTES, NameList};
use refusal::{Ground, Refusal};

// A text has at most so many bytes.
const MAX_TEXT: usize = 1024;

// What `//` hides before the step that is written.
const HIDDEN: Step = Step {
    axis: Axis::DescendantOrSelf,
    test: Test::AnyNode,
};

// A path text that is read by a list of names. The place in it stays a parameter, since it is another in each call.
#[derive(Clone, Copy)]
struct Reader<'a> {
    names: &'a NameList<'a>,
    text: &'a [u8],
}

impl Reader<'_> {
    // The test at a place of the text.
    fn test_of(&self, at: usize, test: Tested<'_>) -> Result<Test, Refusal>
        ensures { result ≡ test_at (listed self.now.names.now) at (test_of test.entry) }
    {
        match test {
            Tested::Named(name) if name.len() > MAX_NAME_BYTES => Err(Ground::LongName.at(at)),
            Tested::Named(name) => {
                let number = self.names.number(name);
                number.map(Test::Name).ok_or(Ground::UnknownName.at(at))
            }
            Tested::Star => Ok(Test::AnyElement),
            Tested::Texts => Ok(Test::AnyText),
            Tested::Nodes => Ok(Test::AnyNode),
        }
    }

    // The step at a place of the text.
    fn step_of(&self, at: usize, step: Written<'_>) -> Result<Step, Refusal>
        requires { at + length (step_text (step_of step)) ≤ 1024 }
        ensures { result ≡ step_at (listed self.now.names.now) at (step_of step.entry) }
    {
        let (axis, test) = match step {
            Written::Dot => (Axis::Itself, Test::AnyNode),
            Written::Dots => (Axis::Parent, Test::AnyNode),
            Written::Plain(test) => (Axis::Child, self.test_of(at, test)?),
            Written::Along(word, test) => {
                let axis = Axis::of_word(word).ok_or(Ground::UnknownAxis.at(at))?;
                (axis, self.test_of(at + (word.len() + 2), test)?)
            }
        };
        Ok(Step { axis, test })
    }

    // The chain so far with the steps of an item at a place of the text; a chain that was refused before stays so.
    fn extend(
        &self,
        sofar: Result<Chain, Refusal>,
        at: usize,
        separator: Separator,
        step: Written<'_>,
    ) -> Result<Chain, Refusal>
        requires { at + length (item_text (item_of separator step)) ≤ 1024 }
        ensures { chained result ≡ go_on (listed self.now.names.now) (chained sofar) at (item_of separator step.entry) }
    {
        let chain = sofar?;
        let full = Ground::TooManySteps.at(at);
        let chain = with_hidden(chain, separator).ok_or(full)?;
        if chain.len() == MAX_STEPS {
            return Err(full);
        }
        let step = self.step_of(at + separator.len(), step)?;
        chain.with(step).ok_or(full)
    }

    // The place of what is left of the text.
    fn place(&self, rest: &[u8]) -> usize
        requires { length rest.now ≤ length self.now.text.now }
        ensures { result ≡ length self.now.text.now - length rest.now }
    {
        self.text.len() - rest.len()
    }

    // Reads a text of items. Never inlined, so that `read_by` answers '/' without what this needs.
    #[inline(never)]
    fn items(&self) -> Result<Chain, Refusal>
        requires { (length self.now.text.now ≤ 1024) × (0 < length self.now.text.now) × (self.now.text.now ≢ codes "/") }
        ensures { Reads (listed self.now.names.now) self.now.text.now result }
    {
        let mut sofar = Ok(Chain::new());
        let mut rest = self.text;
        // No iterator is plainer: the loop ends in a refusal, or in what is left of the text.
        while let Some((separator, behind)) = split_separator(rest) {
            let at = self.place(rest);
            match split_step(behind) {
                Ok((step, after)) => {
                    sofar = self.extend(sofar, at, separator, step);
                    rest = after;
                }
                Err(stuck) => return Err(Ground::NotPath.at(self.place(stuck))),
            }
        }
        if rest.is_empty() {
            return sofar;
        }
        Err(Ground::NotPath.at(self.place(rest)))
    }
}

// The chain with what the separator hides, unless that is a sixteenth step.
fn with_hidden(chain: Chain, separator: Separator) -> Option<Chain>
    ensures { MatchOption result (15 < length (steps_of chain) + length (hidden (separator_of separator))) (λ c. steps_of c ≡ steps_of chain ++ hidden (separator_of separator)) }
{
    match separator {
        Separator::Slash => Some(chain),
        Separator::Slashes => chain.with(HIDDEN),
    }
}

// Reads a path text by a list of names.
pub fn read_by(names: &NameList<'_>, text: &[u8]) -> Result<Chain, Refusal>
    ensures { ReadAs (listed names.now) text.now result }
{
    if text.len() > MAX_TEXT {
        return Err(Ground::LongText.at(MAX_TEXT));
    }
    match text {
        [] => Err(Ground::NotPath.at(0)),
        [b'/'] => Ok(Chain::new()),
        _ => Reader { names, text }.items(),
    }
}

// Reads a path text by the text of a name list, which is checked first.
pub fn read(list: &[u8], text: &[u8]) -> Result<Chain, Refusal>
    ensures { ReadsListed list.now text.now result }
{
    let names = NameList::new(list)?;
    read_by(&names, text)
}
