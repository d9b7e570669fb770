// Path texts: the reader, which makes a chain of one, and the long form, which makes one of a chain.
#![tactic(auto)]

mod long_form;
mod parts;
mod reader;
mod split;

pub use long_form::{MAX_FORM, rewrite, write, write_by};
pub use reader::{read, read_by};
