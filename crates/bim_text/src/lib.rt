//! Decimals and texts as they are spelled in exchange files (ISO 10303-21), and decimal printing.
#![tactic(auto)]

mod byte_classes;
mod compare;
mod cursor;
mod decimal;
mod digits;
mod escapes;
mod laws;
mod limits;
mod number_parts;
mod print;
mod raised_order;
mod rows;
mod short;
mod small;
mod spelled_text;

pub use compare::{says, says_guid};
pub use decimal::Decimal;
pub use laws::{one_decimal, one_value, plain_texts};
pub use limits::{MOST_DIGITS, MOST_EXPONENT};
pub use print::print_i64;
pub use short::{Short, ShortRow, short_at, short_row};
pub use small::small_whole;
pub use spelled_text::{text_of, text_of_plain};
