//! The code, the name and the fields of each fault of an upload and of clash rules. Whoever prints a fault asks here.
ghost use Rattle.std.specs.Prelude.{◌≡◌};
ghost use Rattle.error_json.specs.FaultWords.{many_word, upload_code, upload_name, upload_fields, rule_code, rule_name, rule_fields};

use bim_model::{Many, UploadFault};
use clash_rules::RuleFault;

/// The fields that a fault has beside its code and its name.
#[derive(Clone, Copy, Debug, PartialEq, Eq)]
pub enum FaultFields {
    /// It has none.
    Bare,
    /// A place among the bytes of the file, from 0.
    Place(u64),
    /// The number of an instance.
    Id(u64),
    /// The number of an instance, and the number that it refers to.
    Reference { id: u64, to: u64 },
    /// What is too many.
    What(Many),
    /// The place of a rule, from 0.
    Index(u64),
    /// How many there are.
    Count(u64),
}

/// What is too many, as a word.
pub fn many_word(many: Many) -> &'static str
    ensures { result.now ≡ many_word many }
{
    match many {
        Many::Bytes => "bytes",
        Many::Instances => "instances",
        Many::Values => "values",
        Many::Corners => "corners",
        Many::Triangles => "triangles",
    }
}

/// The code of a fault of an upload.
pub fn upload_code(fault: UploadFault) -> &'static str
    ensures { result.now ≡ upload_code fault }
{
    match fault {
        UploadFault::NotPart21 => "U1",
        UploadFault::BadToken { .. } => "U2",
        UploadFault::BadStatement { .. } => "U3",
        UploadFault::WrongSchema => "U4",
        UploadFault::DoubleId { .. } => "U5",
        UploadFault::Dangling { .. } => "U6",
        UploadFault::BadShape { .. } => "U7",
        UploadFault::LengthUnit { .. } => "U8",
        UploadFault::OffGrid { .. } => "U9",
        UploadFault::TooFar { .. } => "U10",
        UploadFault::Oblique { .. } => "U11",
        UploadFault::PlacementLoop { .. } => "U12",
        UploadFault::UnsupportedItem { .. } => "U13",
        UploadFault::BadIndex { .. } => "U14",
        UploadFault::FaceStuck { .. } => "U15",
        UploadFault::VoidedFace { .. } => "U16",
        UploadFault::DoubleGuid { .. } => "U17",
        UploadFault::TreeFault { .. } => "U18",
        UploadFault::TooMany { .. } => "U19",
    }
}

/// The name of a fault of an upload.
pub fn upload_name(fault: UploadFault) -> &'static str
    ensures { result.now ≡ upload_name fault }
{
    match fault {
        UploadFault::NotPart21 => "NotPart21",
        UploadFault::BadToken { .. } => "BadToken",
        UploadFault::BadStatement { .. } => "BadStatement",
        UploadFault::WrongSchema => "WrongSchema",
        UploadFault::DoubleId { .. } => "DoubleId",
        UploadFault::Dangling { .. } => "Dangling",
        UploadFault::BadShape { .. } => "BadShape",
        UploadFault::LengthUnit { .. } => "LengthUnit",
        UploadFault::OffGrid { .. } => "OffGrid",
        UploadFault::TooFar { .. } => "TooFar",
        UploadFault::Oblique { .. } => "Oblique",
        UploadFault::PlacementLoop { .. } => "PlacementLoop",
        UploadFault::UnsupportedItem { .. } => "UnsupportedItem",
        UploadFault::BadIndex { .. } => "BadIndex",
        UploadFault::FaceStuck { .. } => "FaceStuck",
        UploadFault::VoidedFace { .. } => "VoidedFace",
        UploadFault::DoubleGuid { .. } => "DoubleGuid",
        UploadFault::TreeFault { .. } => "TreeFault",
        UploadFault::TooMany { .. } => "TooMany",
    }
}

/// The fields of a fault of an upload.
pub fn upload_fields(fault: UploadFault) -> FaultFields
    ensures { result ≡ upload_fields fault }
{
    match fault {
        UploadFault::NotPart21 => FaultFields::Bare,
        UploadFault::BadToken { at } => FaultFields::Place(at),
        UploadFault::BadStatement { at } => FaultFields::Place(at),
        UploadFault::WrongSchema => FaultFields::Bare,
        UploadFault::DoubleId { id } => FaultFields::Id(id),
        UploadFault::Dangling { id, to } => FaultFields::Reference { id, to },
        UploadFault::BadShape { id } => FaultFields::Id(id),
        UploadFault::LengthUnit { id } => FaultFields::Id(id),
        UploadFault::OffGrid { id } => FaultFields::Id(id),
        UploadFault::TooFar { id } => FaultFields::Id(id),
        UploadFault::Oblique { id } => FaultFields::Id(id),
        UploadFault::PlacementLoop { id } => FaultFields::Id(id),
        UploadFault::UnsupportedItem { id } => FaultFields::Id(id),
        UploadFault::BadIndex { id } => FaultFields::Id(id),
        UploadFault::FaceStuck { id } => FaultFields::Id(id),
        UploadFault::VoidedFace { id } => FaultFields::Id(id),
        UploadFault::DoubleGuid { id } => FaultFields::Id(id),
        UploadFault::TreeFault { id } => FaultFields::Id(id),
        UploadFault::TooMany { what } => FaultFields::What(what),
    }
}

/// The code of a fault of clash rules.
pub fn rule_code(fault: RuleFault) -> &'static str
    ensures { result.now ≡ rule_code fault }
{
    match fault {
        RuleFault::TooManyRules { .. } => "C2",
        RuleFault::BadRule { .. } => "C1",
        RuleFault::Distance { .. } => "C3",
    }
}

/// The name of a fault of clash rules.
pub fn rule_name(fault: RuleFault) -> &'static str
    ensures { result.now ≡ rule_name fault }
{
    match fault {
        RuleFault::TooManyRules { .. } => "TooManyRules",
        RuleFault::BadRule { .. } => "BadRule",
        RuleFault::Distance { .. } => "Distance",
    }
}

/// The fields of a fault of clash rules.
pub fn rule_fields(fault: RuleFault) -> FaultFields
    ensures { result ≡ rule_fields fault }
{
    match fault {
        RuleFault::TooManyRules { count } => FaultFields::Count(count),
        RuleFault::BadRule { index } => FaultFields::Index(index),
        RuleFault::Distance { index } => FaultFields::Index(index),
    }
}
