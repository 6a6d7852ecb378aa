//! The entities that are followed, by their keywords.
ghost use Rattle.std.specs.Prelude.{◌≡◌};
ghost use Rattle.std.specs.List.{list_any};
ghost use Rattle.std.specs.Str.{bytes_eq};
ghost use Rattle.ifc_instances.specs.Entities.{is_of, subjects};

use ifc_keywords::{FIRST_ELEMENT, KEYWORDS};
use p21_table::{InstanceRef, Keyword};

/// The entities whose attributes are followed (IFC4 ADD2 TC1).
#[derive(Clone, Copy)]
pub enum Entity {
    /// `IFCPROJECT`.
    Project,
    /// `IFCUNITASSIGNMENT`.
    UnitAssignment,
    /// `IFCSIUNIT`.
    SiUnit,
    /// `IFCBUILDINGSTOREY`.
    Storey,
    /// `IFCRELAGGREGATES`.
    Aggregates,
    /// `IFCRELCONTAINEDINSPATIALSTRUCTURE`.
    Containment,
    /// `IFCPRODUCTDEFINITIONSHAPE`.
    ProductShape,
    /// `IFCSHAPEREPRESENTATION`.
    Representation,
    /// `IFCLOCALPLACEMENT`.
    Placement,
    /// `IFCAXIS2PLACEMENT3D`.
    AxisPlacement,
    /// `IFCCARTESIANPOINT`.
    Point,
    /// `IFCDIRECTION`.
    Direction,
    /// `IFCCARTESIANPOINTLIST3D`.
    PointList,
    /// `IFCTRIANGULATEDFACESET`.
    TriangulatedFaceSet,
    /// `IFCPOLYGONALFACESET`.
    PolygonalFaceSet,
    /// `IFCINDEXEDPOLYGONALFACE`.
    Face,
    /// `IFCINDEXEDPOLYGONALFACEWITHVOIDS`.
    FaceWithVoids,
    /// `IFCMAPPEDITEM`.
    MappedItem,
    /// `IFCREPRESENTATIONMAP`.
    RepresentationMap,
    /// `IFCCARTESIANTRANSFORMATIONOPERATOR3D`.
    Operator,
    /// `IFCCONVERSIONBASEDUNIT`.
    ConvertedUnit,
    /// `IFCMEASUREWITHUNIT`.
    Measure,
    /// A building element or a distribution element, by any of their keywords.
    Subject,
}

const SUBJECTS: [&str; 55] = [
    "IFCBEAM",
    "IFCBEAMSTANDARDCASE",
    "IFCBUILDINGELEMENTPROXY",
    "IFCCHIMNEY",
    "IFCCOLUMN",
    "IFCCOLUMNSTANDARDCASE",
    "IFCCOVERING",
    "IFCCURTAINWALL",
    "IFCDOOR",
    "IFCDOORSTANDARDCASE",
    "IFCELEMENTASSEMBLY",
    "IFCFOOTING",
    "IFCFURNISHINGELEMENT",
    "IFCFURNITURE",
    "IFCMEMBER",
    "IFCMEMBERSTANDARDCASE",
    "IFCPILE",
    "IFCPLATE",
    "IFCPLATESTANDARDCASE",
    "IFCRAILING",
    "IFCRAMP",
    "IFCRAMPFLIGHT",
    "IFCROOF",
    "IFCSHADINGDEVICE",
    "IFCSLAB",
    "IFCSLABSTANDARDCASE",
    "IFCSTAIR",
    "IFCSTAIRFLIGHT",
    "IFCTRANSPORTELEMENT",
    "IFCWALL",
    "IFCWALLSTANDARDCASE",
    "IFCWINDOW",
    "IFCWINDOWSTANDARDCASE",
    "IFCDISTRIBUTIONELEMENT",
    "IFCDISTRIBUTIONFLOWELEMENT",
    "IFCFLOWSEGMENT",
    "IFCFLOWFITTING",
    "IFCFLOWTERMINAL",
    "IFCFLOWCONTROLLER",
    "IFCPIPESEGMENT",
    "IFCPIPEFITTING",
    "IFCDUCTSEGMENT",
    "IFCDUCTFITTING",
    "IFCCABLESEGMENT",
    "IFCCABLECARRIERSEGMENT",
    "IFCVALVE",
    "IFCPUMP",
    "IFCFAN",
    "IFCBOILER",
    "IFCTANK",
    "IFCAIRTERMINAL",
    "IFCDAMPER",
    "IFCLIGHTFIXTURE",
    "IFCOUTLET",
    "IFCSANITARYTERMINAL",
];

fn is_any(keyword: &Keyword<'_>, words: &[&str]) -> bool
    ensures { result ≡ list_any (λ w. bytes_eq keyword.now w.now) words.now }
{
    words.iter().any(|word| keyword.is(word))
}

#[tactic(auto, unfolding(crate::specs::Entities::subjects))]
fn is_subject(keyword: &Keyword<'_>) -> bool
    ensures { result ≡ list_any (bytes_eq keyword.now) subjects }
{
    is_any(keyword, &SUBJECTS)
}

/// Those of one keyword, in the order of the numbers of their keywords.
const CODED: [Entity; FIRST_ELEMENT as usize] = [
    Entity::Project,
    Entity::UnitAssignment,
    Entity::SiUnit,
    Entity::Storey,
    Entity::Aggregates,
    Entity::Containment,
    Entity::ProductShape,
    Entity::Representation,
    Entity::Placement,
    Entity::AxisPlacement,
    Entity::Point,
    Entity::Direction,
    Entity::PointList,
    Entity::TriangulatedFaceSet,
    Entity::PolygonalFaceSet,
    Entity::Face,
    Entity::FaceWithVoids,
    Entity::MappedItem,
    Entity::RepresentationMap,
    Entity::Operator,
    Entity::ConvertedUnit,
    Entity::Measure,
];

impl Entity {
    ghost use Rattle.std.specs.Prelude.{◌≡◌};
    ghost use Rattle.ifc_instances.specs.inner.Coded.{has_code, by_code};
    ghost use Rattle.ifc_instances.specs.EntityLookup.{entity_at, is_a};

    /// Whether a keyword is one of this entity's.
    #[tactic(auto, unfolding(crate::specs::Entities::is_of))]
    pub fn is(self, keyword: &Keyword<'_>) -> bool
        ensures { result ≡ is_of self keyword.now }
    {
        match self {
            Entity::Project => keyword.is("IFCPROJECT"),
            Entity::UnitAssignment => keyword.is("IFCUNITASSIGNMENT"),
            Entity::SiUnit => keyword.is("IFCSIUNIT"),
            Entity::Storey => keyword.is("IFCBUILDINGSTOREY"),
            Entity::Aggregates => keyword.is("IFCRELAGGREGATES"),
            Entity::Containment => keyword.is("IFCRELCONTAINEDINSPATIALSTRUCTURE"),
            Entity::ProductShape => keyword.is("IFCPRODUCTDEFINITIONSHAPE"),
            Entity::Representation => keyword.is("IFCSHAPEREPRESENTATION"),
            Entity::Placement => keyword.is("IFCLOCALPLACEMENT"),
            Entity::AxisPlacement => keyword.is("IFCAXIS2PLACEMENT3D"),
            Entity::Point => keyword.is("IFCCARTESIANPOINT"),
            Entity::Direction => keyword.is("IFCDIRECTION"),
            Entity::PointList => keyword.is("IFCCARTESIANPOINTLIST3D"),
            Entity::TriangulatedFaceSet => keyword.is("IFCTRIANGULATEDFACESET"),
            Entity::PolygonalFaceSet => keyword.is("IFCPOLYGONALFACESET"),
            Entity::Face => keyword.is("IFCINDEXEDPOLYGONALFACE"),
            Entity::FaceWithVoids => keyword.is("IFCINDEXEDPOLYGONALFACEWITHVOIDS"),
            Entity::MappedItem => keyword.is("IFCMAPPEDITEM"),
            Entity::RepresentationMap => keyword.is("IFCREPRESENTATIONMAP"),
            Entity::Operator => keyword.is("IFCCARTESIANTRANSFORMATIONOPERATOR3D"),
            Entity::ConvertedUnit => keyword.is("IFCCONVERSIONBASEDUNIT"),
            Entity::Measure => keyword.is("IFCMEASUREWITHUNIT"),
            Entity::Subject => is_subject(keyword),
        }
    }

    /// Whether a number is that of one of its keywords.
    #[tactic(auto, unfolding(crate::specs::inner::Coded::has_code))]
    fn has_code(self, code: u8) -> bool
        ensures { result ≡ has_code self code }
    {
        match self {
            Entity::Project => code == 0,
            Entity::UnitAssignment => code == 1,
            Entity::SiUnit => code == 2,
            Entity::Storey => code == 3,
            Entity::Aggregates => code == 4,
            Entity::Containment => code == 5,
            Entity::ProductShape => code == 6,
            Entity::Representation => code == 7,
            Entity::Placement => code == 8,
            Entity::AxisPlacement => code == 9,
            Entity::Point => code == 10,
            Entity::Direction => code == 11,
            Entity::PointList => code == 12,
            Entity::TriangulatedFaceSet => code == 13,
            Entity::PolygonalFaceSet => code == 14,
            Entity::Face => code == 15,
            Entity::FaceWithVoids => code == 16,
            Entity::MappedItem => code == 17,
            Entity::RepresentationMap => code == 18,
            Entity::Operator => code == 19,
            Entity::ConvertedUnit => code == 20,
            Entity::Measure => code == 21,
            Entity::Subject => code >= FIRST_ELEMENT && code < KEYWORDS,
        }
    }

    /// The entity that has a number.
    #[tactic(auto, unfolding(crate::specs::inner::Coded::by_code))]
    fn by_code(code: u8) -> Option<Entity>
        ensures { result ≡ by_code code }
    {
        if code < FIRST_ELEMENT {
            Some(CODED[code as usize])
        } else if code < KEYWORDS {
            Some(Entity::Subject)
        } else {
            None
        }
    }

    /// Whether an instance is of this entity.
    pub fn includes(self, instance: &InstanceRef<'_>) -> bool
        ensures { result ≡ is_a self instance.now }
    {
        self.has_code(instance.code())
    }

    /// The entity of an instance.
    pub fn at(instance: &InstanceRef<'_>) -> Option<Entity>
        ensures { result ≡ entity_at instance.now }
    {
        Entity::by_code(instance.code())
    }
}
