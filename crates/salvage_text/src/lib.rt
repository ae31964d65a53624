// The words of salvage-print: a size out of a word of the command line, and the lines that it writes.
#![tactic(auto)]

mod lines;
mod sizes;

pub use lines::{Counts, Dropped, Refused, fault_line, last_line, refused_line};
pub use sizes::size_of;
