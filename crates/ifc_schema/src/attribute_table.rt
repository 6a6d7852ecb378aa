//! The attributes of each entity that is followed: what stands where.
ghost use Rattle.std.specs.Prelude.{◌≡◌};
ghost use Rattle.ifc_schema.specs.AttributeTable.{row_of, row_at};

use crate::form::{Attribute, Count, Leaf, Need, Shape, Targets, When};
use ifc_instances::Entity;
use p21_table::InstanceRef;

const PROJECT: [Attribute; 1] = [Attribute {
    at: 8,
    when: When::Always,
    need: Need::OrAbsent,
    shape: Shape::One,
    leaf: Leaf::Reference(Targets::One(Entity::UnitAssignment)),
}];

const UNIT_ASSIGNMENT: [Attribute; 1] = [Attribute {
    at: 0,
    when: When::Always,
    need: Need::Must,
    shape: Shape::List(Count::AtLeast(0)),
    leaf: Leaf::AnyReference(Targets::Units),
}];

const SI_UNIT: [Attribute; 3] = [
    Attribute {
        at: 1,
        when: When::Always,
        need: Need::Must,
        shape: Shape::One,
        leaf: Leaf::Enumeration,
    },
    Attribute {
        at: 2,
        when: When::Always,
        need: Need::OrAbsent,
        shape: Shape::One,
        leaf: Leaf::Enumeration,
    },
    Attribute {
        at: 3,
        when: When::Always,
        need: Need::Must,
        shape: Shape::One,
        leaf: Leaf::Enumeration,
    },
];

const CONVERTED_UNIT: [Attribute; 2] = [
    Attribute {
        at: 1,
        when: When::Always,
        need: Need::Must,
        shape: Shape::One,
        leaf: Leaf::Enumeration,
    },
    Attribute {
        at: 3,
        when: When::OfLength,
        need: Need::Must,
        shape: Shape::One,
        leaf: Leaf::Reference(Targets::One(Entity::Measure)),
    },
];

const MEASURE: [Attribute; 2] = [
    Attribute {
        at: 0,
        when: When::Always,
        need: Need::Must,
        shape: Shape::One,
        leaf: Leaf::Measure,
    },
    Attribute {
        at: 1,
        when: When::Always,
        need: Need::Must,
        shape: Shape::One,
        leaf: Leaf::Reference(Targets::One(Entity::SiUnit)),
    },
];

const STOREY: [Attribute; 1] = [Attribute {
    at: 2,
    when: When::Always,
    need: Need::OrAbsent,
    shape: Shape::One,
    leaf: Leaf::Text,
}];

const AGGREGATES: [Attribute; 2] = [
    Attribute {
        at: 4,
        when: When::Always,
        need: Need::Must,
        shape: Shape::One,
        leaf: Leaf::AnyReference(Targets::Nothing),
    },
    Attribute {
        at: 5,
        when: When::Always,
        need: Need::Must,
        shape: Shape::List(Count::AtLeast(0)),
        leaf: Leaf::AnyReference(Targets::Nothing),
    },
];

const CONTAINMENT: [Attribute; 2] = [
    Attribute {
        at: 4,
        when: When::Always,
        need: Need::Must,
        shape: Shape::List(Count::AtLeast(0)),
        leaf: Leaf::AnyReference(Targets::Nothing),
    },
    Attribute {
        at: 5,
        when: When::Always,
        need: Need::Must,
        shape: Shape::One,
        leaf: Leaf::AnyReference(Targets::Nothing),
    },
];

/// The global identifier of an element.
pub const IDENTIFIER: Attribute = Attribute {
    at: 0,
    when: When::Always,
    need: Need::Must,
    shape: Shape::Identifier,
    leaf: Leaf::Text,
};

/// Its name.
pub const NAME: Attribute = Attribute {
    at: 2,
    when: When::Always,
    need: Need::OrAbsent,
    shape: Shape::One,
    leaf: Leaf::Text,
};

/// Its placement.
pub const PLACED: Attribute = Attribute {
    at: 5,
    when: When::WithBody,
    need: Need::OrAbsent,
    shape: Shape::One,
    leaf: Leaf::Reference(Targets::One(Entity::Placement)),
};

/// Its shape.
pub const SHAPED: Attribute = Attribute {
    at: 6,
    when: When::Always,
    need: Need::OrAbsent,
    shape: Shape::One,
    leaf: Leaf::Reference(Targets::One(Entity::ProductShape)),
};

/// Its tag, which has to be there.
pub const TAGGED: Attribute = Attribute {
    at: 7,
    when: When::Always,
    need: Need::Must,
    shape: Shape::One,
    leaf: Leaf::Anything,
};

const SUBJECT: [Attribute; 5] = [IDENTIFIER, NAME, PLACED, SHAPED, TAGGED];

const PRODUCT_SHAPE: [Attribute; 1] = [Attribute {
    at: 2,
    when: When::Always,
    need: Need::Must,
    shape: Shape::List(Count::AtLeast(0)),
    leaf: Leaf::AnyReference(Targets::One(Entity::Representation)),
}];

const REPRESENTATION: [Attribute; 2] = [
    Attribute {
        at: 1,
        when: When::Always,
        need: Need::OrAbsent,
        shape: Shape::One,
        leaf: Leaf::Text,
    },
    Attribute {
        at: 3,
        when: When::WithItems,
        need: Need::Must,
        shape: Shape::List(Count::AtLeast(1)),
        leaf: Leaf::AnyReference(Targets::Items),
    },
];

const PLACEMENT: [Attribute; 2] = [
    Attribute {
        at: 0,
        when: When::Always,
        need: Need::OrAbsent,
        shape: Shape::One,
        leaf: Leaf::Reference(Targets::One(Entity::Placement)),
    },
    Attribute {
        at: 1,
        when: When::Always,
        need: Need::Must,
        shape: Shape::One,
        leaf: Leaf::Reference(Targets::One(Entity::AxisPlacement)),
    },
];

const AXIS_PLACEMENT: [Attribute; 3] = [
    Attribute {
        at: 0,
        when: When::Always,
        need: Need::Must,
        shape: Shape::One,
        leaf: Leaf::Reference(Targets::One(Entity::Point)),
    },
    Attribute {
        at: 1,
        when: When::Always,
        need: Need::OrAbsent,
        shape: Shape::One,
        leaf: Leaf::Reference(Targets::One(Entity::Direction)),
    },
    Attribute {
        at: 2,
        when: When::Always,
        need: Need::OrAbsent,
        shape: Shape::One,
        leaf: Leaf::Reference(Targets::One(Entity::Direction)),
    },
];

const POINT: [Attribute; 1] = [Attribute {
    at: 0,
    when: When::Always,
    need: Need::Must,
    shape: Shape::List(Count::Exactly(3)),
    leaf: Leaf::Number,
}];

const DIRECTION: [Attribute; 1] = [Attribute {
    at: 0,
    when: When::Always,
    need: Need::Must,
    shape: Shape::List(Count::Exactly(3)),
    leaf: Leaf::Number,
}];

const POINT_LIST: [Attribute; 1] = [Attribute {
    at: 0,
    when: When::Always,
    need: Need::Must,
    shape: Shape::Table(Count::AtLeast(1), Count::Exactly(3)),
    leaf: Leaf::Number,
}];

const TRIANGULATED_FACE_SET: [Attribute; 3] = [
    Attribute {
        at: 0,
        when: When::Always,
        need: Need::Must,
        shape: Shape::One,
        leaf: Leaf::Reference(Targets::One(Entity::PointList)),
    },
    Attribute {
        at: 3,
        when: When::Always,
        need: Need::Must,
        shape: Shape::Table(Count::AtLeast(1), Count::Exactly(3)),
        leaf: Leaf::Whole,
    },
    Attribute {
        at: 4,
        when: When::Always,
        need: Need::OrMissing,
        shape: Shape::List(Count::AtLeast(0)),
        leaf: Leaf::Whole,
    },
];

const POLYGONAL_FACE_SET: [Attribute; 3] = [
    Attribute {
        at: 0,
        when: When::Always,
        need: Need::Must,
        shape: Shape::One,
        leaf: Leaf::Reference(Targets::One(Entity::PointList)),
    },
    Attribute {
        at: 2,
        when: When::Always,
        need: Need::Must,
        shape: Shape::List(Count::AtLeast(1)),
        leaf: Leaf::Reference(Targets::Faces),
    },
    Attribute {
        at: 3,
        when: When::Always,
        need: Need::OrMissing,
        shape: Shape::List(Count::AtLeast(0)),
        leaf: Leaf::Whole,
    },
];

const FACE: [Attribute; 1] = [Attribute {
    at: 0,
    when: When::Always,
    need: Need::Must,
    shape: Shape::List(Count::AtLeast(3)),
    leaf: Leaf::Whole,
}];

const FACE_WITH_VOIDS: [Attribute; 2] = [
    Attribute {
        at: 0,
        when: When::Always,
        need: Need::Must,
        shape: Shape::List(Count::AtLeast(3)),
        leaf: Leaf::Whole,
    },
    Attribute {
        at: 1,
        when: When::Always,
        need: Need::Must,
        shape: Shape::Table(Count::AtLeast(1), Count::AtLeast(3)),
        leaf: Leaf::Whole,
    },
];

const MAPPED_ITEM: [Attribute; 2] = [
    Attribute {
        at: 0,
        when: When::Always,
        need: Need::Must,
        shape: Shape::One,
        leaf: Leaf::Reference(Targets::One(Entity::RepresentationMap)),
    },
    Attribute {
        at: 1,
        when: When::Always,
        need: Need::Must,
        shape: Shape::One,
        leaf: Leaf::AnyReference(Targets::One(Entity::Operator)),
    },
];

const REPRESENTATION_MAP: [Attribute; 2] = [
    Attribute {
        at: 0,
        when: When::Always,
        need: Need::Must,
        shape: Shape::One,
        leaf: Leaf::Reference(Targets::One(Entity::AxisPlacement)),
    },
    Attribute {
        at: 1,
        when: When::Always,
        need: Need::Must,
        shape: Shape::One,
        leaf: Leaf::Reference(Targets::One(Entity::Representation)),
    },
];

const OPERATOR: [Attribute; 5] = [
    Attribute {
        at: 0,
        when: When::Always,
        need: Need::OrMissing,
        shape: Shape::One,
        leaf: Leaf::Reference(Targets::One(Entity::Direction)),
    },
    Attribute {
        at: 1,
        when: When::Always,
        need: Need::OrMissing,
        shape: Shape::One,
        leaf: Leaf::Reference(Targets::One(Entity::Direction)),
    },
    Attribute {
        at: 2,
        when: When::Always,
        need: Need::Must,
        shape: Shape::One,
        leaf: Leaf::Reference(Targets::One(Entity::Point)),
    },
    Attribute {
        at: 3,
        when: When::Always,
        need: Need::OrMissing,
        shape: Shape::One,
        leaf: Leaf::Number,
    },
    Attribute {
        at: 4,
        when: When::Always,
        need: Need::OrMissing,
        shape: Shape::One,
        leaf: Leaf::Reference(Targets::One(Entity::Direction)),
    },
];

/// The attributes of an entity that are followed, by rising number.
#[tactic(auto, unfolding(crate::specs::AttributeTable::row_of))]
pub fn row_of(entity: Entity) -> &'static [Attribute]
    ensures { result.now ≡ row_of entity }
{
    match entity {
        Entity::Project => &PROJECT,
        Entity::UnitAssignment => &UNIT_ASSIGNMENT,
        Entity::SiUnit => &SI_UNIT,
        Entity::ConvertedUnit => &CONVERTED_UNIT,
        Entity::Measure => &MEASURE,
        Entity::Storey => &STOREY,
        Entity::Aggregates => &AGGREGATES,
        Entity::Containment => &CONTAINMENT,
        Entity::Subject => &SUBJECT,
        Entity::ProductShape => &PRODUCT_SHAPE,
        Entity::Representation => &REPRESENTATION,
        Entity::Placement => &PLACEMENT,
        Entity::AxisPlacement => &AXIS_PLACEMENT,
        Entity::Point => &POINT,
        Entity::Direction => &DIRECTION,
        Entity::PointList => &POINT_LIST,
        Entity::TriangulatedFaceSet => &TRIANGULATED_FACE_SET,
        Entity::PolygonalFaceSet => &POLYGONAL_FACE_SET,
        Entity::Face => &FACE,
        Entity::FaceWithVoids => &FACE_WITH_VOIDS,
        Entity::MappedItem => &MAPPED_ITEM,
        Entity::RepresentationMap => &REPRESENTATION_MAP,
        Entity::Operator => &OPERATOR,
    }
}

/// The attributes of an instance that are followed.
pub fn row_at(instance: &InstanceRef<'_>) -> &'static [Attribute]
    ensures { result.now ≡ row_at instance.now }
{
    match Entity::at(instance) {
        Some(entity) => row_of(entity),
        None => &[],
    }
}
