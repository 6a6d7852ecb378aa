//! Versions of few boxes, worked out by another program.
use crate::sample_pipes::{corner, named};
use bim_model::{Element, Guid, Items, NamedModel, Rules, Shared, Snapshot, Text, Triangle};
use bucket_grid::{Cell, Grid, GridError, Member, has_few_elements};
use std::alloc::Global;
use std::process::Abort;
use std::test::Fail;

/// A version, its models by rising name, each with the boxes of its elements in millimetres.
type Boxes<'a> = &'a [(&'a str, &'a [[i32; 6]])];

/// An element whose identifier rises with its place, with one triangle of this box.
fn element(alloc: Global, place: usize, sides: [i32; 6]) -> Result<Element, Fail> {
    let text = format!(in alloc; "{place:022}")?;
    let low = corner(sides[0], sides[1], sides[2])?;
    let high = corner(sides[3], sides[4], sides[5])?;
    let mut triangles = Items::new(alloc);
    triangles.push(Triangle {
        a: low,
        b: high,
        c: low,
    })?;
    Ok(Element {
        guid: Guid::read(text.as_bytes()).ok_or("an identifier")?,
        class: Text::of(alloc, "IFCBEAM")?,
        name: Text::of(alloc, "")?,
        storey: None,
        triangles,
    })
}

fn model(alloc: Global, name: &str, boxes: &[[i32; 6]]) -> Result<NamedModel, Fail> {
    let mut elements = Vec::new(alloc);
    for (place, sides) in boxes.iter().enumerate() {
        elements.push(element(alloc, place, *sides)?)?;
    }
    named(alloc, name, elements)
}

fn version(alloc: Global, models: Boxes) -> Result<Snapshot, Fail> {
    let rules = Shared::new(alloc, Rules::new(alloc))?;
    let mut version = Snapshot::new(alloc, rules);
    for (name, boxes) in models {
        version = version.with_model(alloc, model(alloc, *name, *boxes)?)?;
    }
    Ok(version)
}

fn grid_of(rt: &impl Abort, alloc: Global, models: Boxes) -> Result<Result<Grid, GridError>, Fail> {
    let version = Shared::new(alloc, version(alloc, models)?)?;
    assert!(rt; has_few_elements(version.get().models()));
    Ok(Grid::of(alloc, version))
}

/// The bucket at a place has this cell and these members.
fn is_bucket(rt: &impl Abort, grid: &Grid, place: usize, cell: [i32; 3], members: &[u32]) {
    let cell = Cell {
        x: cell[0],
        y: cell[1],
        z: cell[2],
    };
    assert!(rt; place < grid.buckets().len());
    assert_eq!(rt; grid.buckets()[place].cell, cell);
    assert_eq!(rt; grid.members(cell), members);
    let mut next = 3;
    assert_eq!(rt; grid.members_in_turn(cell, &mut next), members);
    assert_eq!(rt; next, place + 1);
}

/// Four boxes of two models with sides a millimetre beside the faces of cells.
#[test]
fn buckets_are_as_worked_out(rt: HostRuntime) -> Result<(), Fail> {
    let first: &[[i32; 6]] = &[[-999, -1000, 1000, 1001, -1000, 3000]];
    let second: &[[i32; 6]] = &[
        [1001, -1000, -1000, 1001, 1000, 1000],
        [1000, 1001, 1001, 1000, 1001, 3002],
        [999, -999, -999, 999, -999, -999],
    ];
    let Ok(grid) = grid_of(&rt, rt.alloc(), &[("b", first), ("m", second)])? else {
        return Err(Fail::from("no grid"));
    };
    assert_eq!(rt; grid.memberships(), 22);
    assert_eq!(rt; grid.buckets().len(), 7);
    is_bucket(&rt, &grid, 0, [-1, -1, 0], &[0, 3]);
    is_bucket(&rt, &grid, 1, [-1, 0, 0], &[0, 3]);
    is_bucket(&rt, &grid, 2, [0, -1, -1], &[1, 3]);
    is_bucket(&rt, &grid, 3, [0, -1, 0], &[0, 1, 3]);
    is_bucket(&rt, &grid, 4, [0, 0, -1], &[1, 3]);
    is_bucket(&rt, &grid, 5, [0, 0, 0], &[0, 1, 2, 3]);
    is_bucket(&rt, &grid, 6, [0, 0, 1], &[0, 2]);
    Ok(())
}

/// As many memberships as there may be, and one more.
#[test]
fn spread_versions_are_refused(rt: HostRuntime) -> Result<(), Fail> {
    let wide = [1000, 1000, 1000, 498_999, 498_999, 510_999];
    match grid_of(&rt, rt.alloc(), &[("m", &[wide])])? {
        Ok(grid) => assert_eq!(rt; grid.memberships(), 2_000_000),
        Err(_) => return Err(Fail::from("no grid")),
    }
    match grid_of(&rt, rt.alloc(), &[("m", &[wide, [2000; 6]])])? {
        Err(GridError::TooSpread { count }) => assert_eq!(rt; count, 2_000_001),
        _ => return Err(Fail::from("a grid")),
    }
    Ok(())
}

/// Elements, their places and the cells that own pairs of them.
#[test]
fn buckets_are_found_for_elements(rt: HostRuntime) -> Result<(), Fail> {
    let first: &[[i32; 6]] = &[[-999, -1000, 1000, 1001, -1000, 3000]];
    let second: &[[i32; 6]] = &[[1001, -1000, -1000, 1001, 1000, 1000], [100_000; 6]];
    let Ok(grid) = grid_of(&rt, rt.alloc(), &[("b", first), ("m", second)])? else {
        return Err(Fail::from("no grid"));
    };
    assert_eq!(rt; grid.boxes().len(), 3);
    assert_eq!(rt; grid.places().len(), 3);
    assert_eq!(rt;
        grid.places()[2],
        Member {
            model: 1,
            element: 1
        }
    );
    assert_eq!(rt; grid.element(1).guid.as_str(), "0000000000000000000000");
    assert_eq!(rt; grid.model_of(1), 1);
    assert_eq!(rt; grid.same_model(0, 1), false);
    assert_eq!(rt; grid.same_model(1, 2), true);
    assert_eq!(rt; grid.owner(0, 1), Some(Cell { x: 0, y: -1, z: 0 }));
    assert_eq!(rt; grid.owner(0, 2), None);
    assert_eq!(rt; grid.members(Cell { x: 9, y: 9, z: 9 }).len(), 0);
    assert_eq!(rt; grid.models().len(), 2);
    assert_eq!(rt; grid.rules().list().len(), 0);
    assert_eq!(rt; grid.snapshot().models().len(), 2);
    Ok(())
}
