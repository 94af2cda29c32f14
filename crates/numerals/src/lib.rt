// What a word says, if it is digits: a decimal number, or bytes in hexadecimal. It knows of no house and of no verb: any
// program that reads lines can stand on it.
#![tactic(auto)]

mod decimals;
mod hex;

pub use decimals::{number_of, up_to};
pub use hex::{is_bytes, is_hex, unhex};
