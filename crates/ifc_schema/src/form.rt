//! The forms that attributes have.
ghost use Rattle.std.specs.Prelude.{◌≡◌};
ghost use Rattle.ifc_schema.specs.Forms.{is_nothing, holds, fits, followed, allows_absent, allows_missing};

use ifc_instances::Entity;
use p21_table::InstanceRef;

/// The instances that a reference may lead to, by their entities.
#[derive(Clone, Copy)]
pub enum Targets {
    /// None is named.
    Nothing,
    One(Entity),
    /// Polygonal faces, with voids or without.
    Faces,
    /// Face sets and mapped items.
    Items,
    /// Units of the international system, and units that are converted to one.
    Units,
}

/// What one value is, where it isn't a list.
#[derive(Clone, Copy)]
pub enum Leaf {
    Number,
    /// A number whose value is whole.
    Whole,
    /// A number, or a typed value that holds one.
    Measure,
    Text,
    Enumeration,
    /// A reference to an instance of one of these entities, which are followed.
    Reference(Targets),
    /// A reference to any instance, of which these are followed.
    AnyReference(Targets),
    /// Any value.
    Anything,
}

/// How many items a list has.
#[derive(Clone, Copy)]
pub enum Count {
    Exactly(usize),
    AtLeast(usize),
}

/// In how many lists a leaf stands.
#[derive(Clone, Copy)]
pub enum Shape {
    One,
    /// In none, and a text also has a globally unique identifier as its value.
    Identifier,
    List(Count),
    /// A list of lists.
    Table(Count, Count),
}

/// What may stand in place of a value of the form.
#[derive(Clone, Copy)]
pub enum Need {
    /// Nothing.
    Must,
    /// `$` or `*`.
    OrAbsent,
    /// `$` or `*`, or the instance has no such attribute.
    OrMissing,
}

/// In which instances of the entity an attribute is followed.
#[derive(Clone, Copy)]
pub enum When {
    Always,
    /// In an element that has a body.
    WithBody,
    /// In a representation that is a body or is mapped.
    WithItems,
    /// In a unit of length.
    OfLength,
}

/// An attribute of an entity, and the form that it has.
#[derive(Clone, Copy)]
pub struct Attribute {
    /// Its number, from 0.
    pub at: usize,
    pub when: When,
    pub need: Need,
    pub shape: Shape,
    pub leaf: Leaf,
}

impl Targets {
    /// Whether no entity is meant.
    pub fn is_nothing(self) -> bool
        ensures { result ≡ is_nothing self }
    {
        matches!(self, Targets::Nothing)
    }

    /// Whether an instance is one of those that are meant.
    pub fn include(self, instance: &InstanceRef<'_>) -> bool
        ensures { result ≡ holds self instance.now.keyword }
    {
        match self {
            Targets::Nothing => false,
            Targets::One(entity) => entity.includes(instance),
            Targets::Faces => Entity::Face.includes(instance)
                || Entity::FaceWithVoids.includes(instance),
            Targets::Items => {
                Entity::TriangulatedFaceSet.includes(instance)
                    || Entity::PolygonalFaceSet.includes(instance)
                    || Entity::MappedItem.includes(instance)
            }
            Targets::Units => {
                Entity::SiUnit.includes(instance) || Entity::ConvertedUnit.includes(instance)
            }
        }
    }
}

impl Leaf {
    /// The entities whose instances are followed.
    pub fn followed(self) -> Targets
        ensures { result ≡ followed self }
    {
        match self {
            Leaf::Reference(targets) => targets,
            Leaf::AnyReference(targets) => targets,
            _ => Targets::Nothing,
        }
    }
}

impl Count {
    /// Whether a list may have that many items.
    pub fn fits(self, many: usize) -> bool
        ensures { result ≡ fits self many }
    {
        match self {
            Count::Exactly(count) => many == count,
            Count::AtLeast(count) => count <= many,
        }
    }
}

impl Need {
    /// Whether `$` or `*` may stand.
    pub fn allows_absent(self) -> bool
        ensures { result ≡ allows_absent self }
    {
        !matches!(self, Need::Must)
    }

    /// Whether the instance may lack the attribute.
    pub fn allows_missing(self) -> bool
        ensures { result ≡ allows_missing self }
    {
        matches!(self, Need::OrMissing)
    }
}
