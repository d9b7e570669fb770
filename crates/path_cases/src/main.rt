// Reads each line of standard input as a path text, and prints its long form, or the number and the place of the refusal.
#![tactic(auto)]

use names::NameList;
use paths::{MAX_FORM, rewrite};
use refusal::Refusal;
use std::io;
use std::io::{Read, Write};
use thiserror::Error;

// The names that the texts are read by; the last has 32 bytes.
const NAMES: &[u8] =
    b"batch\ninvoice\ntotal\ntext\nnode\nself\na\nb.c-d\n_x9\nn0000000000000000000000000000000\n";

// The input is not longer.
const INPUT_BYTES: u64 = 65536;

#[derive(Debug, Drop, Error)]
#[error(transparent)]
enum Failure {
    Io(#[from] io::Error),
    Names(#[from] Refusal),
}

fn main(rt: HostRuntime) -> Result<(), Failure> {
    let mut bytes = Vec::new(rt.alloc());
    rt.stdin().take(INPUT_BYTES).read_to_end(&mut bytes)?;
    let names = NameList::new(NAMES)?;
    // Printing may fail between two texts, so they are counted as they are printed.
    let mut accepted: usize = 0;
    let mut refused: usize = 0;
    for line in bytes.split_inclusive(|byte| *byte == b'\n') {
        // A tail without a line end is no text.
        let [text @ .., b'\n'] = line else {
            break;
        };
        // Lent to the writer, which answers how many of the bytes are the form.
        let mut form = [0; MAX_FORM];
        match rewrite(&names, text, &mut form) {
            Ok(len) => {
                print(&rt, &form[..len])?;
                accepted = accepted.saturating_add(1);
            }
            Err(Refusal { ground, place }) => {
                let number = ground.number();
                println!(rt; "{number} {place}")?;
                refused = refused.saturating_add(1);
            }
        }
    }
    let texts = accepted.saturating_add(refused);
    println!(rt; "{texts} texts: {accepted} accepted, {refused} refused.")?;
    Ok(())
}

// Prints a long form as a line. `batch path` does the same in two lines; programs share no crate of their own.
fn print(rt: &HostRuntime, form: &[u8]) -> io::Result<()> {
    let mut out = rt.stdout();
    out.write_all(form)?;
    out.write_all(b"\n")
}
