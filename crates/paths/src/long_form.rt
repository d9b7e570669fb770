// The long form of a chain: each step as /axis::test, and no steps as '/'.
ghost use Rattle.std.specs.Prelude.{◌≡◌, ◌+◌, ◌≤◌, true, false, [], ◌++◌, length, take, MatchOption};
ghost use Rattle.arrayvec.specs.ArrayVec.{array_vec_len};
ghost use Rattle.names.specs.Listed.{listed};
ghost use Rattle.grammar.specs.LongForm.{long_test, unlisted, Writes, WritesListed, Rewrites};
ghost use Rattle.paths.specs.Forms.{StepPut, Composed};

use super::reader::read_by;
use arrayvec::ArrayVec;
use chain::{Chain, Step, Test};
use names::NameList;
use refusal::{Ground, Refusal};

// No long form is longer: fifteen steps of a slash, an axis word of at most 18 bytes, two colons, and a name of at most 32.
pub const MAX_FORM: usize = 795;

// A long form as it is put together.
type Form = ArrayVec<u8, MAX_FORM>;

// The text of a test, unless its name is not in the list.
fn test_text<'a>(names: &NameList<'a>, test: Test) -> Option<&'a [u8]>
    ensures { MatchOption result (unlisted (listed names.now) test ≡ true) (λ t. (unlisted (listed names.now) test ≡ false) × (t.now ≡ long_test (listed names.now) test)) }
{
    match test {
        Test::Name(number) => names.name(number),
        Test::AnyElement => Some(b"*"),
        Test::AnyText => Some(b"text()"),
        Test::AnyNode => Some(b"node()"),
    }
}

// Appends a part, for which there is room.
fn put(form: &mut Form, part: &[u8])
    requires { array_vec_len form.old + length part.now ≤ 795 }
    ensures items { form.new.items ≡ form.old.items ++ part.now }
    ensures len { array_vec_len form.new ≡ array_vec_len form.old + length part.now }
{
    form.try_extend_from_slice(part).unwrap();
}

// Appends a step, unless its name is not in the list.
fn put_step(names: &NameList<'_>, step: Step, form: &mut Form) -> Option<()>
    requires { array_vec_len form.old + 53 ≤ 795 }
    ensures { MatchOption result (unlisted (listed names.now) step.test ≡ true) (λ _. StepPut (listed names.now) step form.old.items form.new.items) }
{
    let test = test_text(names, step.test)?;
    put(form, b"/");
    put(form, step.axis.word());
    put(form, b"::");
    put(form, test);
    Some(())
}

// Appends the long form of steps to an empty form.
fn compose(names: &NameList<'_>, steps: &[Step], form: &mut Form) -> Result<(), Refusal>
    requires few { length steps.now ≤ 15 }
    requires empty { form.old.items ≡ [] }
    ensures { Composed (listed names.now) steps.now result form.new }
{
    if steps.is_empty() {
        put(form, b"/");
        return Ok(());
    }
    for (i, step) in steps.iter().enumerate() {
        put_step(names, *step, form).ok_or(Ground::UnknownName.at(i))?;
    }
    Ok(())
}

// Writes a chain in its long form by a list of names, and answers the length. The bytes are the caller's, so nothing is allocated.
pub fn write_by(names: &NameList<'_>, chain: &Chain, out: &mut [u8]) -> Result<usize, Refusal>
    ensures { Writes (listed names.now) chain.now out.old result out.new }
{
    let mut form = Form::new();
    compose(names, chain.steps(), &mut form)?;
    let len = form.len();
    if len > out.len() {
        return Err(Ground::TooSmall.at(0));
    }
    out[..len].copy_from_slice(form.as_slice());
    Ok(len)
}

// Writes a chain by the text of a name list, which is checked first.
pub fn write(list: &[u8], chain: &Chain, out: &mut [u8]) -> Result<usize, Refusal>
    ensures { WritesListed list.now chain.now out.old result out.new }
{
    let names = NameList::new(list)?;
    write_by(&names, chain, out)
}

// Reads a path text and writes its chain in the long form, which reads as the same chain.
pub fn rewrite(names: &NameList<'_>, text: &[u8], out: &mut [u8]) -> Result<usize, Refusal>
    ensures { Rewrites (listed names.now) text.now out.old result out.new }
{
    let chain = read_by(names, text)?;
    write_by(names, &chain, out)
}
