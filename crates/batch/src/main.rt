// The tool for people: shows what a feed makes, and what a path text says.
#![tactic(auto)]

mod failure;
mod list;
mod path;
mod show;

use failure::Failure;
use names::NameList;
use std::env;
use std::process::ExitCode;

const USAGE: &str = "batch: shows the documents of billing batches, and what their paths say

  batch show [--names NAMES] < FEED
                         show the document that a feed makes, a line for each node:
                         number, kind, an element's name or name number,
                         end number or 'open'
  batch path NAMES TEXT  read a path, and print its long form
  batch help             print this text

NAMES is a file of names, one a line; the first has the name number 1.
A refusal is one line on standard error, 'refused: NUMBER LAYER PLACE: GROUND',
with the refused text and a caret below it where there is one. The exit status
is then 1.";

// Where the program ends with status 1, why is on standard error.
fn main(rt: HostRuntime) -> ExitCode {
    match run(&rt) {
        Ok(()) => ExitCode::SUCCESS,
        Err(failure) => {
            let _ = eprintln!(rt; "{failure}");
            ExitCode::FAILURE
        }
    }
}

fn run(rt: &HostRuntime) -> Result<(), Failure> {
    let args = env::args(rt)?.collect::<Vec<String>>(rt.alloc())?;
    let mut words = args.iter().skip(1).map(String::as_str);
    match [words.next(), words.next(), words.next(), words.next()] {
        [None, ..] | [Some("help"), None, ..] => println!(rt; "{USAGE}")?,
        [Some("show"), None, ..] => show::show(rt, NameList::empty())?,
        [Some("show"), Some("--names"), Some(file), None] => {
            let bytes = list::read(rt, file)?;
            show::show(rt, list::load(rt, &bytes)?)?;
        }
        [Some("path"), Some(file), Some(text), None] => path::path(rt, file, text)?,
        _ => return Err(Failure::Usage),
    }
    Ok(())
}
