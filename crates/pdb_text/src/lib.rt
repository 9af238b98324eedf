//! Pieces of text that programs share.
#![tactic(auto)]

mod counted;
mod digits;
mod failures;
mod numbers;
mod one_line;
mod output;
mod words;

pub use counted::{CountedWrite, CountedWriter, write_counted};
pub use digits::{
    decimal2, hex4, hex8, hex8_field, put_decimal, put_field, put_hex_bytes, put_hex2, put_hex4,
    put_hex8, put_line_end, put_short_hex,
};
pub use numbers::{long_number_in, number_in};
pub use one_line::{put_one_line, to_one_line};
pub use output::{WriteFailed, write_out};
pub use words::{WordsError, words_of};
