//! Tokens of the clear text encoding of the exchange structure (ISO 10303-21, sections 5 and 6), with their spans.
//!
//! The bytes are cut from the left, the longest spelling each time. Blanks and comments may stand between tokens. Nothing is copied
//! and no memory is taken: a token says where its bytes begin and end.
#![tactic(auto)]

mod class;
mod cutting;
mod gaps;
mod laws;
mod lexer;
mod limits;
mod runs;
mod spelling;
mod there;
mod token;

pub use cutting::cut;
pub use laws::one_cut;
pub use lexer::Lexer;
pub use limits::GREATEST_NAME;
pub use there::{NameThere, name_there, number_there, value_there, word_there};
pub use token::{LexFault, Token, TokenKind};
