//! The values of items, and the canonical texts of symbols, operators and polynomials.
#![tactic(auto)]

mod expansion;
mod laws;
mod limits;
mod polynomials;
mod read;
mod write;

pub use expansion::expand;
pub use laws::{one_operator, one_polynomial, one_symbol, text_is_item};
pub use limits::limit_word;
pub use polynomials::{ReadPolyFault, read_poly};
pub use read::{read_operator, read_symbol};
pub use write::{push_symbol, write_operator, write_poly, write_symbol};
