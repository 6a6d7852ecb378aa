//! The entities of IFC that a coordination model is read from (IFC4 ADD2 TC1): which attributes are followed and what form they have, and which
//! instances of a file are used.
#![tactic(auto)]

mod attribute_table;
mod body;
mod flaw;
mod follow;
mod form;
mod laws;
mod outcome;
mod surveying;
mod visit;
mod words;
mod worklist;

pub use body::{bodied_of, is_body};
pub use flaw::{Flaw, instance_flaw};
pub use laws::one_survey_fault;
pub use outcome::Survey;
pub use surveying::{list_elements, survey};
pub use visit::mark_used;
pub use worklist::{Mark, Work};
