//! The keywords of the entities of IFC that are followed (IFC4 ADD2 TC1), each with a number.
#![tactic(auto)]

mod known_words;

pub use known_words::{FIRST_ELEMENT, KEYWORDS, code_of, is_word, known_word};
