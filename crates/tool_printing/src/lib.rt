//! Where the texts of commands are printed, and the note that one was made of something damaged.
#![tactic(auto)]

mod printer;

pub use printer::{MARK, Printer, Printout, put_mark};
