//! Values and instances, as the callers see them.
use bim_model::{Bytes, Items, Text};
use sqlite_items::Boxed;

/// The value of an attribute (ISO 10303-21, section 6 and 10).
#[derive(Drop)]
pub enum Value21 {
    /// `$`: no value.
    Absent,
    /// `*`: a value that is derived.
    Derived,
    /// A number, as it is spelled.
    Number(Bytes),
    /// A text, as it is spelled between its apostrophes.
    Words(Bytes),
    /// An enumeration, without its points.
    Enumeration(Text),
    /// A binary, without its quotation marks.
    Bits(Bytes),
    /// The instance of that name.
    Reference(u64),
    /// Values in parentheses. They lie in a block of their own; contracts see it as their list.
    List(Boxed<sqlite_items::Items<Value21>>),
    /// A keyword, in upper case, and a value in parentheses.
    Typed(Boxed<Text>, Boxed<Value21>),
}

/// An instance: `#id=KEYWORD(values);`.
#[derive(Drop)]
pub struct Instance {
    /// The number of its name.
    pub id: u64,
    /// The keyword in upper case; none of a complex instance.
    pub keyword: Option<Text>,
    /// The attributes in their order; none of a complex instance.
    pub values: Items<Value21>,
}
