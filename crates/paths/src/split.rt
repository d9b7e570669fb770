// Cuts the parts of a path text off its front. What is left is the rest of the text; where no path goes on, it is the error.
ghost use Rattle.std.specs.Prelude.{◌≡◌, false, ◌∷◌, length, MatchOption, MatchResult, nat_eq};
ghost use Rattle.std.specs.List.{prefix_len};
ghost use Rattle.names.specs.Classes.{begins, goes};
ghost use Rattle.grammar.specs.Texts.{separator_text};
ghost use Rattle.grammar.specs.Scanner.{heads, kind_test};
ghost use Rattle.paths.specs.Parts.{separator_of, maybe_test};
ghost use Rattle.paths.specs.Cuts.{NameCut, NameTested, TestSplit, NameStepped, StepSplit, SeparatorCut};

use super::parts::{Separator, Tested, Written};
use names::{begins_name, continues_name};

// How many bytes at the front of the text a name goes on with.
fn name_len(text: &[u8]) -> usize
    ensures { result ≡ prefix_len goes text.now }
{
    text.iter()
        .take_while(|byte| continues_name(**byte))
        .count()
}

// The name that the text begins with.
fn split_name(text: &[u8]) -> Option<(&[u8], &[u8])>
    ensures { MatchOption result (heads begins text.now ≡ false) (λ p. NameCut text.now p.0.now p.1.now) }
{
    match text {
        [first, ..] if begins_name(*first) => Some(text.split_at(name_len(text))),
        _ => None,
    }
}

// The test whose word stands before a parenthesis.
fn kind_test<'a>(word: &[u8]) -> Option<Tested<'a>>
    ensures { maybe_test result ≡ kind_test word.now }
{
    match word {
        b"text" => Some(Tested::Texts),
        b"node" => Some(Tested::Nodes),
        _ => None,
    }
}

impl Separator {
    pub fn len(self) -> usize
        ensures { result ≡ length (separator_text (separator_of self)) }
    {
        match self {
            Separator::Slash => 1,
            Separator::Slashes => 2,
        }
    }
}

// The separator that the text begins with.
pub fn split_separator(text: &[u8]) -> Option<(Separator, &[u8])>
    ensures { MatchOption result (heads (λ b. nat_eq b 47) text.now ≡ false) (λ p. SeparatorCut text.now (separator_of p.0) p.1.now) }
{
    match text {
        [b'/', b'/', rest @ ..] => Some((Separator::Slashes, rest)),
        [b'/', rest @ ..] => Some((Separator::Slash, rest)),
        _ => None,
    }
}

// The text behind a closing parenthesis. Here and in the next two a mark is matched as a character: a rule of this reader.
fn closed(text: &[u8]) -> Result<&[u8], &[u8]>
    ensures { MatchResult result (λ rest. text.now ≡ 41 ∷ rest.now) (λ s. (s.now ≡ text.now) × (heads (λ b. nat_eq b 41) text.now ≡ false)) }
{
    let [first, rest @ ..] = text else {
        return Err(text);
    };
    match char::from(*first) {
        ')' => Ok(rest),
        _ => Err(text),
    }
}

// A name and the text behind it, as a test: `text` and `node` with parentheses behind them test the kind of a node.
fn test_of_name<'a>(word: &'a [u8], text: &'a [u8]) -> Result<(Tested<'a>, &'a [u8]), &'a [u8]>
    ensures { NameTested word.now text.now result }
{
    let [first, inside @ ..] = text else {
        return Ok((Tested::Named(word), text));
    };
    match char::from(*first) {
        '(' => match kind_test(word) {
            Some(test) => {
                let rest = closed(inside)?;
                Ok((test, rest))
            }
            None => Ok((Tested::Named(word), text)),
        },
        _ => Ok((Tested::Named(word), text)),
    }
}

// The test that the text begins with.
fn split_test(text: &[u8]) -> Result<(Tested<'_>, &[u8]), &[u8]>
    ensures { TestSplit text.now result }
{
    let [first, rest @ ..] = text else {
        return Err(text);
    };
    match char::from(*first) {
        '*' => Ok((Tested::Star, rest)),
        _ => match split_name(text) {
            Some((word, rest)) => test_of_name(word, rest),
            None => Err(text),
        },
    }
}

// A name and the text behind it, as a step: a name with `::` behind it is an axis word.
fn step_of_name<'a>(word: &'a [u8], text: &'a [u8]) -> Result<(Written<'a>, &'a [u8]), &'a [u8]>
    ensures { NameStepped word.now text.now result }
{
    match text {
        [b':', b':', test @ ..] => {
            let (test, rest) = split_test(test)?;
            Ok((Written::Along(word, test), rest))
        }
        [b':', rest @ ..] => Err(rest),
        _ => {
            let (test, rest) = test_of_name(word, text)?;
            Ok((Written::Plain(test), rest))
        }
    }
}

// The step that the text begins with.
pub fn split_step(text: &[u8]) -> Result<(Written<'_>, &[u8]), &[u8]>
    ensures { StepSplit text.now result }
{
    match text {
        [b'.', b'.', rest @ ..] => Ok((Written::Dots, rest)),
        [b'.', rest @ ..] => Ok((Written::Dot, rest)),
        [b'*', rest @ ..] => Ok((Written::Plain(Tested::Star), rest)),
        _ => match split_name(text) {
            Some((word, rest)) => step_of_name(word, rest),
            None => Err(text),
        },
    }
}
