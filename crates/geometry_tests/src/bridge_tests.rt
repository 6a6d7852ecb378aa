//! Loops of faces with voids, joined by hand and by another program.
ghost use Rattle.std.specs.Prelude.{◌≡◌, ◌≤◌, ◌+◌, length, map, All, IfOk, IfSome};
ghost use Rattle.bim_model.specs.Points.{IsGridPoint};
ghost use Rattle.void_bridge.specs.HoleLoops.{corner_count, AreLoops};

use crate::sample_points::polygon;
use bim_model::Point;
use ear_cut::{Ear, cut};
use std::alloc::{AllocError, Global};
use std::test::Fail;
use void_bridge::{BridgeError, join_loops};

/// The loops of a face and the places of the joined list; none where the rule is stuck.
struct Case {
    outer: &'static [[i32; 3]],
    inner: &'static [&'static [[i32; 3]]],
    list: &'static [u32],
}

static CASES: [Case; 11] = [
    // A square in a square, which turns as it does: it is gone round the other way.
    Case {
        outer: &[[0, 0, 0], [300, 0, 0], [300, 300, 0], [0, 300, 0]],
        inner: &[&[[100, 100, 0], [200, 100, 0], [200, 200, 0], [100, 200, 0]]],
        list: &[0, 4, 7, 6, 5, 4, 0, 1, 2, 3],
    },
    // A hole that is gone round as it is.
    Case {
        outer: &[[0, 0, 0], [300, 0, 0], [300, 300, 0], [0, 300, 0]],
        inner: &[&[[100, 200, 0], [200, 200, 0], [200, 100, 0], [100, 100, 0]]],
        list: &[0, 4, 5, 6, 7, 4, 0, 1, 2, 3],
    },
    // The outer loop from behind.
    Case {
        outer: &[[0, 300, 0], [300, 300, 0], [300, 0, 0], [0, 0, 0]],
        inner: &[&[[100, 100, 0], [200, 100, 0], [200, 200, 0], [100, 200, 0]]],
        list: &[0, 4, 5, 6, 7, 4, 0, 1, 2, 3],
    },
    // In the view from the side.
    Case {
        outer: &[[7, 0, 0], [7, 9, 0], [7, 9, 9], [7, 0, 9]],
        inner: &[&[[7, 3, 3], [7, 6, 3], [7, 3, 6]]],
        list: &[0, 4, 6, 5, 4, 0, 1, 2, 3],
    },
    // A hole with a corner at one of the outer loop's.
    Case {
        outer: &[[-600, 0, -20], [0, 0, -20], [0, 400, -20], [-600, 400, -20]],
        inner: &[&[[0, 0, -20], [-50, 200, -20], [-200, 50, -20]]],
        list: &[0, 6, 5, 4, 6, 0, 1, 2, 3],
    },
    // Three holes: the second is joined to the first, the third to the square, each by its second corner.
    Case {
        outer: &[[0, 60, 0], [0, 60, 40], [0, 0, 40], [0, 0, 0]],
        inner: &[
            &[[0, 57, 24], [0, 57, 26], [0, 3, 26], [0, 3, 24]],
            &[[0, 28, 9], [0, 32, 9], [0, 30, 13]],
            &[[0, 2, 6], [0, 2, 4], [0, 58, 4], [0, 58, 6]],
        ],
        list: &[
            0, 14, 13, 12, 11, 14, 0, 4, 10, 9, 8, 10, 4, 7, 6, 5, 4, 0, 1, 2, 3,
        ],
    },
    // The outer loop again as a hole.
    Case {
        outer: &[[0, 0, 0], [300, 0, 0], [300, 300, 0], [0, 300, 0]],
        inner: &[&[[0, 0, 0], [300, 0, 0], [300, 300, 0], [0, 300, 0]]],
        list: &[0, 6, 5, 4, 7, 6, 0, 1, 2, 3],
    },
    // A hole without area.
    Case {
        outer: &[[0, 0, 0], [300, 0, 0], [300, 300, 0], [0, 300, 0]],
        inner: &[&[[100, 100, 0], [200, 100, 0], [150, 100, 0]]],
        list: &[0, 4, 5, 6, 4, 0, 1, 2, 3],
    },
    // A triangle that is its own hole: each bridge is an edge.
    Case {
        outer: &[[0, 0, 0], [1, 0, 0], [0, 1, 0]],
        inner: &[&[[0, 0, 0], [1, 0, 0], [0, 1, 0]]],
        list: &[],
    },
    // An outer loop without area: there is no view.
    Case {
        outer: &[[0, 0, 0], [10, 0, 0], [20, 0, 0]],
        inner: &[&[[1, 0, 0], [2, 0, 0], [3, 0, 0]]],
        list: &[],
    },
    // A hole that halves the square from corner to corner: no bridge leads to it.
    Case {
        outer: &[
            [47, 0, 0],
            [47, 0, -3900000],
            [47, 3900000, -3900000],
            [47, 3900000, 0],
        ],
        inner: &[&[[47, 0, 0], [47, 0, 0], [47, 3900000, -3900000]]],
        list: &[],
    },
];

/// The most corners of the inner loops of a case.
const MOST: usize = 100;

/// The inner loops; none where one has fewer than three corners, or where there are more than a hundred in all.
fn loops(alloc: Global, given: &[&[[i32; 3]]]) -> Result<Option<Vec<Vec<Point>>>, AllocError>
    ensures loops { IfOk result (λ found. IfSome found (λ made.
        AreLoops (map (λ l. l.items) made.items))) }
    ensures few { IfOk result (λ found. IfSome found (λ made.
        corner_count (map (λ l. l.items) made.items) ≤ MOST)) }
{
    let mut made = Vec::new(alloc);
    let mut left = MOST;
    for corners in given {
        if corners.len() < 3 || left < corners.len() {
            return Ok(None);
        }
        left -= corners.len();
        made.push(polygon(alloc, corners)?)?;
    }
    Ok(Some(made))
}

/// Worked out by hand and by another program.
#[test]
fn loops_are_joined_by_the_rule(rt: HostRuntime) -> Result<(), Fail> {
    for case in CASES.iter() {
        let outer = polygon(rt.alloc(), case.outer)?;
        let inner = loops(rt.alloc(), case.inner)?.ok_or("too short a loop")?;
        assert!(rt; outer.len() >= 3 && outer.len() <= MOST);
        match join_loops(rt.alloc(), &outer, &inner) {
            Ok(list) => assert_eq!(rt; list.as_slice(), case.list),
            Err(fault) => {
                assert_eq!(rt; fault, BridgeError::Stuck);
                assert_eq!(rt; case.list.len(), 0, "{outer:?}");
            }
        }
    }
    Ok(())
}

/// The points at the places of a joined list.
fn at_places(alloc: Global, points: &[Point], list: &[u32]) -> Result<Vec<Point>, AllocError>
    requires { All IsGridPoint points.now }
    ensures { IfOk result (λ made. All IsGridPoint made.items) }
{
    let mut made = Vec::new(alloc);
    for place in list {
        let at = *place as usize;
        if at < points.len() {
            made.push(points[at])?;
        }
    }
    Ok(made)
}

/// The place that stands at an index of a joined list.
fn place(list: &[u32], at: u32) -> u32 {
    list.get(at as usize).copied().unwrap_or(u32::MAX)
}

/// The triangles by the places of the loops.
fn by_places(alloc: Global, ears: &[Ear], list: &[u32]) -> Result<Vec<[u32; 3]>, AllocError> {
    let mut made = Vec::new(alloc);
    for ear in ears {
        made.push([place(list, ear.a), place(list, ear.b), place(list, ear.c)])?;
    }
    Ok(made)
}

/// The corners of the square in a square, by their places.
static CORNERS: [[i32; 3]; 8] = [
    [0, 0, 0],
    [300, 0, 0],
    [300, 300, 0],
    [0, 300, 0],
    [100, 100, 0],
    [200, 100, 0],
    [200, 200, 0],
    [100, 200, 0],
];

/// The square in a square: its joined list is cut as one polygon.
#[test]
fn a_face_with_a_hole_is_cut(rt: HostRuntime) -> Result<(), Fail> {
    let alloc = rt.alloc();
    let outer = polygon(alloc, CASES[0].outer)?;
    let inner = loops(alloc, CASES[0].inner)?.ok_or("too short a loop")?;
    assert!(rt; outer.len() >= 3 && outer.len() <= MOST);
    let list = join_loops(alloc, &outer, &inner).map_err(|_| "not joined")?;
    let points = polygon(alloc, &CORNERS)?;
    let joined = at_places(alloc, &points, &list)?;
    assert!(rt; joined.len() == 10);
    let ears = cut(alloc, &joined).map_err(|_| "not cut")?;
    let triangles = by_places(alloc, &ears, &list)?;
    let wanted = [
        [3, 0, 4],
        [3, 4, 7],
        [3, 7, 6],
        [5, 4, 0],
        [5, 0, 1],
        [6, 5, 1],
        [6, 1, 2],
        [6, 2, 3],
    ];
    assert_eq!(rt; triangles.as_slice(), wanted.as_slice());
    Ok(())
}
