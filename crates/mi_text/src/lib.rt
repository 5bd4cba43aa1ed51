//! Text of the machine interface: digits, tokens, numbers and C strings, written and read.
//!
//! The forms are those of GDB's manual, chapters "GDB/MI Output Syntax" and "GDB/MI Input Syntax".
#![tactic(auto)]

mod c_string;
mod digits;
mod escape;
mod fault;
mod front;
mod hexadecimal;
mod number;
mod numeral;
mod token;

pub use c_string::write_c_string;
pub use digits::is_digit;
pub use escape::read_text;
pub use fault::ReadFault;
pub use front::after;
pub use hexadecimal::{are_bytes, bytes_of};
pub use number::{digits_number, number_of};
pub use numeral::{address_text, write_decimal, write_exit_code, write_worth};
pub use token::{Token, is_token};
