//! Pipes, rules and grids of the tests.
ghost use Rattle.std.specs.Prelude.{◌<◌};

use bim_model::{
    ClassTest, Distance, Element, Guid, Items, Model, ModelTest, NamedModel, PER_MM, Point, Rule,
    RuleKind, Rules, Shared, Snapshot, StoreyTest, Text, Triangle,
};
use bucket_grid::{Grid, has_few_elements};
use std::alloc::{AllocError, Global};
use std::process::Abort;
use std::test::Fail;

/// A corner in millimetres.
pub fn corner(x: i32, y: i32, z: i32) -> Result<Point, Fail> {
    Ok(Point {
        x: x.checked_mul(PER_MM).ok_or("a corner")?,
        y: y.checked_mul(PER_MM).ok_or("a corner")?,
        z: z.checked_mul(PER_MM).ok_or("a corner")?,
    })
}

/// A level triangle whose two short sides are a hundred millimetres long, from this corner.
pub fn pipe(alloc: Global, guid: &[u8], x: i32, y: i32, z: i32) -> Result<Element, Fail> {
    let mut triangles = Items::new(alloc);
    triangles.push(Triangle {
        a: corner(x, y, z)?,
        b: corner(x.checked_add(100).ok_or("a side")?, y, z)?,
        c: corner(x, y.checked_add(100).ok_or("a side")?, z)?,
    })?;
    Ok(Element {
        guid: Guid::read(guid).ok_or("an identifier")?,
        class: Text::of(alloc, "IFCPIPESEGMENT")?,
        name: Text::of(alloc, "Pipe 1")?,
        storey: None,
        triangles,
    })
}

/// A model of elements under a name.
pub fn named(alloc: Global, name: &str, elements: Vec<Element>) -> Result<NamedModel, Fail> {
    let model = Model::checked(alloc, elements)?.ok_or("a model")?;
    Ok(NamedModel {
        name: Text::of(alloc, name)?,
        model: Shared::new(alloc, model)?,
    })
}

/// Any two elements clash within so many millimetres.
pub fn rules(alloc: Global, distance: u32) -> Result<Shared<Rules>, AllocError>
    requires { distance < 1000 }
{
    let rule = Rule {
        a: ClassTest::Any,
        b: ClassTest::Any,
        storey: StoreyTest::Any,
        level: None,
        models: ModelTest::Any,
        kind: RuleKind::Clash {
            distance: Distance::new(distance),
        },
    };
    let mut list = Vec::new(alloc);
    list.push(rule)?;
    Shared::new(alloc, Rules::from_vec(list))
}

/// A version of two pipes, one 50 millimetres above the other, under the rules of 50 millimetres.
pub fn two_pipes(alloc: Global) -> Result<Snapshot, Fail> {
    let mut elements = Vec::new(alloc);
    elements.push(pipe(alloc, b"0000000000000000000001", 0, 0, 0)?)?;
    elements.push(pipe(alloc, b"0000000000000000000002", 0, 0, 50)?)?;
    let empty = Snapshot::new(alloc, rules(alloc, 50)?);
    Ok(empty.with_model(alloc, named(alloc, "m", elements)?)?)
}

/// The grid of a version of few elements.
pub fn grid_of(rt: &impl Abort, alloc: Global, version: Snapshot) -> Result<Shared<Grid>, Fail> {
    let version = Shared::new(alloc, version)?;
    assert!(rt; has_few_elements(version.get().models()));
    let Ok(grid) = Grid::of(alloc, version) else {
        return Err(Fail::from("no grid"));
    };
    Ok(Shared::new(alloc, grid)?)
}
