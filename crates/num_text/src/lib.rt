//! Reads whole numbers and decimals from tokens, and prints decimal text.
//!
//! Verified: `push_whole`, `push_natural`, `whole`, `scaled` print and read numbers exactly, with each error where it is defined.
//!
//! A token is a run of bytes of a text, such as a field of a PLY body. Both readers check all bytes of the token, in linear
//! time, and allocate no memory. A decimal is read in *units*: the number times a whole scale, rounded to the nearest whole
//! number, halves away from zero. So `0.25` at scale 1000 (thousandths) is 250.
//!
//! The crate depends on `itoa` (printing) and `thiserror` alone.
#![tactic(auto)]

mod decimal;
mod digits;
mod laws;
mod print;
mod refusal;
mod whole_number;

pub use decimal::{SCALED_LIMIT, UNIT_LIMIT, scaled};
pub use digits::all_digits;
pub use laws::printed_numbers_are_read;
pub use print::{NoMemory, push_ended, push_natural, push_whole};
pub use refusal::NumRefusal;
pub use whole_number::whole;
