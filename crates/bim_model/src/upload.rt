//! Why an upload is refused, and how its lengths come on the grid.

use std::alloc::{AllocError, AllocFailed};

/// How a length that lies between two grid numbers is read.
#[derive(Clone, Copy, Debug, PartialEq, Eq)]
pub enum Mode {
    /// It is refused, unless it lies within a thousandth of a millimetre of one.
    Exact,
    /// It becomes the nearest one, halves away from zero.
    Snap,
}

/// Of what an upload has too many.
#[derive(Clone, Copy, Debug, PartialEq, Eq)]
pub enum Many {
    /// More than 33,554,432 bytes.
    Bytes,
    /// More than 1,000,000 instances.
    Instances,
    /// More than 8,000,000 values, lists and typed values counting one each beside what they hold.
    Values,
    /// More than 1,000 corners of a face.
    Corners,
    /// More than 1,000,000 triangles.
    Triangles,
}

/// Why a file makes no model. Places count bytes from 0, also those of a byte order mark; an id is the number of an instance's name
/// (ISO 10303-21, clear text encoding).
#[derive(Clone, Copy, Debug, PartialEq, Eq)]
pub enum UploadFault {
    /// U1: the first two tokens aren't `ISO-10303-21` and `;`.
    NotPart21,
    /// U2: the file can't go on at `at`, and no token begins there.
    BadToken { at: u64 },
    /// U3: the file can't go on at `at`: the token there can't stand there, or the bytes end there too early.
    BadStatement { at: u64 },
    /// U4: the header doesn't name the schema IFC4 exactly once.
    WrongSchema,
    /// U5: two instances have this id.
    DoubleId { id: u64 },
    /// U6: the instance `id` refers to `to`, which isn't there.
    Dangling { id: u64, to: u64 },
    /// U7: an attribute of this instance hasn't the form that its entity has.
    BadShape { id: u64 },
    /// U8: there isn't exactly one project with exactly one length unit; `id` is the least project's, else 0.
    LengthUnit { id: u64 },
    /// U9: a length lies between two grid numbers.
    OffGrid { id: u64 },
    /// U10: a coordinate is beyond 800,000 mm.
    TooFar { id: u64 },
    /// U11: an axis placement or an operator gives no axes along those of the grid.
    Oblique { id: u64 },
    /// U12: the placements above this one never end.
    PlacementLoop { id: u64 },
    /// U13: an item of a body is of a kind that isn't read, or is mapped in a way that isn't.
    UnsupportedItem { id: u64 },
    /// U14: an index of this face set names nothing.
    BadIndex { id: u64 },
    /// U15: this face can't be cut into triangles.
    FaceStuck { id: u64 },
    /// U16: this face has voids.
    VoidedFace { id: u64 },
    /// U17: an element of lower id has the same global identifier.
    DoubleGuid { id: u64 },
    /// U18: the object has two containers or two wholes, or comes again on its own way up.
    TreeFault { id: u64 },
    /// U19.
    TooMany { what: Many },
}

/// Why a reading crate gives nothing.
#[derive(Clone, Copy, Debug)]
pub enum BuildError {
    Fault(UploadFault),
    /// Memory is wanting.
    Memory,
}

impl From<AllocError> for BuildError {
    ghost use Rattle.std.specs.Prelude.{◌≡◌};
    ghost use Rattle.bim_model.specs.declared.upload.BuildError.TheVariants.{Memory};

    ghost from_gives = { λ _ error. error ≡ Memory };

    fn from(_error: AllocError) -> BuildError {
        BuildError::Memory
    }
}

impl<T: Drop> From<AllocFailed<T>> for BuildError {
    ghost use Rattle.std.specs.Prelude.{◌≡◌};
    ghost use Rattle.bim_model.specs.declared.upload.BuildError.TheVariants.{Memory};

    ghost from_gives = { λ _ error. error ≡ Memory };

    fn from(_error: AllocFailed<T>) -> BuildError {
        BuildError::Memory
    }
}

impl From<UploadFault> for BuildError {
    ghost use Rattle.std.specs.Prelude.{◌≡◌};
    ghost use Rattle.bim_model.specs.declared.upload.BuildError.TheVariants.{Fault};

    ghost from_gives = { λ fault error. error ≡ Fault fault };

    fn from(fault: UploadFault) -> BuildError {
        BuildError::Fault(fault)
    }
}
