//! The lines of a generated file.
ghost use Rattle.std.specs.Prelude.{◌≡◌, ◌<◌, string_bytes, IfOk};
ghost use Rattle.model_generator.specs.Cuboids.{IsSmall};
ghost use Rattle.model_generator.specs.InstanceLines.{head, end, whole, corner, edge, corners_at, corners, triples, class_of, guid_front, guid_back, guid_of, name, named, front_of, line_of, points_line, set_back, set_line, surface_lines, shape_lines, subject_front, subject_back, subject_line, element_lines};

use crate::cuboid::Cuboid;
use crate::phrases::{Phrase, text_of};
use std::alloc::{AllocError, Global};

const HEAD: &str =
    "ISO-10303-21;\nHEADER;\nFILE_DESCRIPTION((''),'2;1');\nFILE_NAME('a.ifc','2024-05-01T12:00:00',(''),(''),'','','');\nFILE_SCHEMA(('IFC4'));\nENDSEC;\nDATA;\n#1=IFCPROJECT('0000000000000000000001',$,'P',$,$,$,$,(),#2);\n#2=IFCUNITASSIGNMENT((#3));\n#3=IFCSIUNIT(*,.LENGTHUNIT.,.MILLI.,.METRE.);\n";

const END: &str = "ENDSEC;\nEND-ISO-10303-21;\n";

// Two triangles for each of the six sides.
const TRIPLES: &str =
    "(1,3,2),(2,3,4),(5,6,7),(6,8,7),(1,2,5),(2,6,5),(3,7,4),(4,7,8),(1,5,3),(3,5,7),(2,4,6),(4,8,6)";

#[tactic(auto, unfolding(crate::specs::InstanceLines::triples))]
fn triples() -> &'static str
    ensures { result.now ≡ triples }
{
    TRIPLES
}

/// The lines before the elements.
#[tactic(auto, unfolding(crate::specs::InstanceLines::head))]
pub fn head() -> &'static str
    ensures { result.now ≡ head }
{
    HEAD
}

/// The lines after them.
#[tactic(auto, unfolding(crate::specs::InstanceLines::end))]
pub fn end() -> &'static str
    ensures { result.now ≡ end }
{
    END
}

// A whole number in decimal.
#[tactic(auto, unfolding(crate::specs::InstanceLines::whole))]
fn whole(alloc: Global, number: u32) -> Result<String, AllocError>
    ensures { IfOk result (λ text. string_bytes text ≡ whole number) }
{
    format!(in alloc; "{number}")
}

fn corner(alloc: Global, x: u32, y: u32, z: u32) -> Result<String, AllocError>
    ensures { IfOk result (λ text. string_bytes text ≡ corner x y z) }
{
    let x = whole(alloc, x)?;
    let y = whole(alloc, y)?;
    let z = whole(alloc, z)?;
    let first = format!(in alloc; "({x}.,")?;
    let second = format!(in alloc; "{y}.,")?;
    let third = format!(in alloc; "{z}.)")?;
    format!(in alloc; "{first}{second}{third}")
}

// The two corners of an edge along x.
fn edge(alloc: Global, cuboid: Cuboid, y: u32, z: u32) -> Result<String, AllocError>
    requires { IsSmall cuboid }
    ensures { IfOk result (λ text. string_bytes text ≡ edge cuboid y z) }
{
    let first = corner(alloc, cuboid.x, y, z)?;
    let second = corner(alloc, cuboid.x + cuboid.width, y, z)?;
    format!(in alloc; "{first},{second}")
}

// The four corners of that height.
fn corners_at(alloc: Global, cuboid: Cuboid, z: u32) -> Result<String, AllocError>
    requires { IsSmall cuboid }
    ensures { IfOk result (λ text. string_bytes text ≡ corners_at cuboid z) }
{
    let front = edge(alloc, cuboid, cuboid.y, z)?;
    let back = edge(alloc, cuboid, cuboid.y + cuboid.depth, z)?;
    format!(in alloc; "{front},{back}")
}

// The eight corners: x changes first, then y, then z.
fn corners(alloc: Global, cuboid: Cuboid) -> Result<String, AllocError>
    requires { IsSmall cuboid }
    ensures { IfOk result (λ text. string_bytes text ≡ corners cuboid) }
{
    let low = corners_at(alloc, cuboid, cuboid.z)?;
    let high = corners_at(alloc, cuboid, cuboid.z + cuboid.height)?;
    format!(in alloc; "{low},{high}")
}

// The name of an instance.
fn name(alloc: Global, id: u32) -> Result<String, AllocError>
    ensures { IfOk result (λ text. string_bytes text ≡ name id) }
{
    let id = whole(alloc, id)?;
    format!(in alloc; "#{id}")
}

fn points_line(alloc: Global, k: u32, cuboid: Cuboid) -> Result<String, AllocError>
    requires { IsSmall cuboid }
    ensures { IfOk result (λ text. string_bytes text ≡ points_line k cuboid) }
{
    let points = name(alloc, k)?;
    let open = text_of(Phrase::Points);
    let front = format!(in alloc; "{points}{open}")?;
    let corners = corners(alloc, cuboid)?;
    let close = text_of(Phrase::Close);
    format!(in alloc; "{front}{corners}{close}")
}

// A line's front: its instance and the one that it names.
fn front_of(alloc: Global, id: u32, phrase: Phrase, named: u32) -> Result<String, AllocError>
    ensures { IfOk result (λ text. string_bytes text ≡ front_of id phrase named) }
{
    let instance = name(alloc, id)?;
    let open = text_of(phrase);
    let named = name(alloc, named)?;
    format!(in alloc; "{instance}{open}{named}")
}

// The back of the line of the triangles.
fn set_back(alloc: Global) -> Result<String, AllocError>
    ensures { IfOk result (λ text. string_bytes text ≡ set_back) }
{
    let closed = text_of(Phrase::Closed);
    let triples = triples();
    let plain = text_of(Phrase::Plain);
    format!(in alloc; "{closed}{triples}{plain}")
}

fn set_line(alloc: Global, k: u32) -> Result<String, AllocError>
    requires { k < 100000 }
    ensures { IfOk result (λ text. string_bytes text ≡ set_line k) }
{
    let front = front_of(alloc, k + 1, Phrase::Set, k)?;
    let back = set_back(alloc)?;
    format!(in alloc; "{front}{back}")
}

// A line that names one instance and nothing else.
fn line_of(alloc: Global, id: u32, phrase: Phrase, named: u32) -> Result<String, AllocError>
    ensures { IfOk result (λ text. string_bytes text ≡ line_of id phrase named) }
{
    let front = front_of(alloc, id, phrase, named)?;
    let close = text_of(Phrase::Close);
    format!(in alloc; "{front}{close}")
}

// The class of the element of that place.
#[tactic(auto, unfolding(crate::specs::InstanceLines::class_of))]
fn class_of(place: u32) -> &'static str
    ensures { result.now ≡ class_of place }
{
    if place % 2 == 0 {
        "IFCBEAM"
    } else {
        "IFCPIPESEGMENT"
    }
}

// The first digits of an identifier, up to the thousands.
fn guid_front(alloc: Global, number: u32) -> Result<String, AllocError>
    ensures { IfOk result (λ text. string_bytes text ≡ guid_front number) }
{
    let zeros = text_of(Phrase::Zeros);
    let first = whole(alloc, number / 10_000)?;
    let second = whole(alloc, number / 1_000 % 10)?;
    format!(in alloc; "{zeros}{first}{second}")
}

// Its last three digits.
fn guid_back(alloc: Global, number: u32) -> Result<String, AllocError>
    ensures { IfOk result (λ text. string_bytes text ≡ guid_back number) }
{
    let third = whole(alloc, number / 100 % 10)?;
    let fourth = whole(alloc, number / 10 % 10)?;
    let fifth = whole(alloc, number % 10)?;
    format!(in alloc; "{third}{fourth}{fifth}")
}

// The identifier of a number below 100,000: its five digits after seventeen zeros.
fn guid_of(alloc: Global, number: u32) -> Result<String, AllocError>
    ensures { IfOk result (λ text. string_bytes text ≡ guid_of number) }
{
    let front = guid_front(alloc, number)?;
    let back = guid_back(alloc, number)?;
    format!(in alloc; "{front}{back}")
}

// The identifier of the element of a place, and its name, which is the same.
fn named(alloc: Global, place: u32) -> Result<String, AllocError>
    requires { place < 10000 }
    ensures { IfOk result (λ text. string_bytes text ≡ named place) }
{
    let open = text_of(Phrase::Guid);
    let guid = guid_of(alloc, place + 1)?;
    let between = text_of(Phrase::Named);
    let front = format!(in alloc; "{open}{guid}{between}")?;
    format!(in alloc; "{front}{guid}")
}

fn subject_front(alloc: Global, k: u32, place: u32) -> Result<String, AllocError>
    requires { k < 100000 }
    ensures { IfOk result (λ text. string_bytes text ≡ subject_front k place) }
{
    let subject = name(alloc, k + 4)?;
    let class = class_of(place);
    format!(in alloc; "{subject}={class}")
}

fn subject_back(alloc: Global, k: u32) -> Result<String, AllocError>
    requires { k < 100000 }
    ensures { IfOk result (λ text. string_bytes text ≡ subject_back k) }
{
    let placed = text_of(Phrase::Placed);
    let product = name(alloc, k + 3)?;
    let done = text_of(Phrase::Done);
    format!(in alloc; "{placed}{product}{done}")
}

fn subject_line(alloc: Global, k: u32, place: u32) -> Result<String, AllocError>
    requires k { k < 100000 }
    requires place { place < 10000 }
    ensures { IfOk result (λ text. string_bytes text ≡ subject_line k place) }
{
    let front = subject_front(alloc, k, place)?;
    let named = named(alloc, place)?;
    let back = subject_back(alloc, k)?;
    format!(in alloc; "{front}{named}{back}")
}

// The two lines of the surface.
fn surface_lines(alloc: Global, k: u32, cuboid: Cuboid) -> Result<String, AllocError>
    requires k { k < 100000 }
    requires cuboid { IsSmall cuboid }
    ensures { IfOk result (λ text. string_bytes text ≡ surface_lines k cuboid) }
{
    let points = points_line(alloc, k, cuboid)?;
    let set = set_line(alloc, k)?;
    format!(in alloc; "{points}{set}")
}

// The two lines of the shape.
fn shape_lines(alloc: Global, k: u32) -> Result<String, AllocError>
    requires { k < 100000 }
    ensures { IfOk result (λ text. string_bytes text ≡ shape_lines k) }
{
    let shape = line_of(alloc, k + 2, Phrase::Shape, k + 1)?;
    let product = line_of(alloc, k + 3, Phrase::Product, k + 2)?;
    format!(in alloc; "{shape}{product}")
}

/// The five lines of the element of that place, from 0.
pub fn element_lines(alloc: Global, place: u32, cuboid: Cuboid) -> Result<String, AllocError>
    requires place { place < 10000 }
    requires cuboid { IsSmall cuboid }
    ensures { IfOk result (λ text. string_bytes text ≡ element_lines place cuboid) }
{
    let k = 10 + 5 * place;
    let surface = surface_lines(alloc, k, cuboid)?;
    let shape = shape_lines(alloc, k)?;
    let subject = subject_line(alloc, k, place)?;
    format!(in alloc; "{surface}{shape}{subject}")
}
