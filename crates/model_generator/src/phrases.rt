//! The fixed parts of the lines of a generated file.
ghost use Rattle.std.specs.Prelude.{◌≡◌};
ghost use Rattle.model_generator.specs.Phrases.{text_of};

/// A fixed part of a line.
#[derive(Clone, Copy, Debug, PartialEq, Eq)]
pub enum Phrase {
    Points,
    Set,
    Closed,
    Plain,
    Shape,
    Product,
    Close,
    Guid,
    Named,
    Placed,
    Done,
    Zeros,
}

/// Its text.
#[tactic(auto, unfolding(crate::specs::Phrases::text_of))]
pub fn text_of(which: Phrase) -> &'static str
    ensures { result.now ≡ text_of which }
{
    match which {
        Phrase::Points => "=IFCCARTESIANPOINTLIST3D((",
        Phrase::Set => "=IFCTRIANGULATEDFACESET(",
        Phrase::Closed => ",$,.T.,(",
        Phrase::Plain => "),$);\n",
        Phrase::Shape => "=IFCSHAPEREPRESENTATION($,'Body','Tessellation',(",
        Phrase::Product => "=IFCPRODUCTDEFINITIONSHAPE($,$,(",
        Phrase::Close => "));\n",
        Phrase::Guid => "('",
        Phrase::Named => "',$,'",
        Phrase::Placed => "',$,$,$,",
        Phrase::Done => ",$,$);\n",
        Phrase::Zeros => "00000000000000000",
    }
}
