// A document as text for people: a line for each node, indented by its level, and a sentence that says what was read.
#![tactic(auto)]

mod label;
mod line;
mod named_line;
mod summary;

pub use line::Line;
pub use named_line::NamedLine;
pub use summary::Summary;
