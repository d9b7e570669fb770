// Cases: a lender's view of a table, proved, and limits, samples, damaged feeds, paths and the texts for people, run.
#![tactic(auto)]

#[cfg(test)]
mod feeds;
mod lending;
#[cfg(test)]
mod path_texts;
#[cfg(test)]
mod tables;
#[cfg(test)]
mod texts;

pub use lending::open_one;
