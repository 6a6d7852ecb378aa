//! Indexes as they are spelled, and what sets say by them.
ghost use Rattle.std.specs.Prelude.{◌≤◌, All, IfOk, unsigned_abs};
ghost use Rattle.bim_model.specs.Points.{grid_limit, IsGridPoint};

use crate::sample_files::exchange_of;
use bim_model::{BuildError, GRID_LIMIT, Point, Triangle};
use faceset::{
    Learnt, has_bad_index, has_unbridged, least_stuck, place_of, set_triangles, triangle_count,
};
use p21_reader::{Exchange, InstanceRef};
use std::alloc::{AllocError, Global};
use std::process::Abort;
use std::test::Fail;

/// The first instance, a list of three points, and the name of the second, a set over it.
const POINTS: &str = "#1=IFCCARTESIANPOINTLIST3D(((0.,0.,0.),(1.,0.,0.),(0.,1.,0.)));#2=";

/// Which of so many points the set's first attribute names, where it is there.
fn first_place(exchange: &Exchange, count: u8) -> Option<Option<usize>> {
    let value = exchange.look(2)?.attribute(0)?;
    Some(place_of(&value, count as usize))
}

/// Which of so many points an index that is spelled so names.
fn place_spelled(
    alloc: Global,
    spelled: &str,
    count: u8,
) -> Result<Option<Option<usize>>, BuildError> {
    let parts = [POINTS, "IFCTRIANGULATEDFACESET(", spelled, ");"];
    let exchange = exchange_of(alloc, &parts)?;
    let found = first_place(&exchange, count);
    drop(exchange);
    Ok(found)
}

/// An index as it is spelled, how many points there are, and the place of the one that it names.
static INDEXES: [(&str, u8, Option<usize>); 15] = [
    ("$", 3, None),
    ("1", 3, Some(0)),
    ("3", 3, Some(2)),
    ("+2.", 3, Some(1)),
    ("30E-1", 3, Some(2)),
    ("1E1", 10, Some(9)),
    ("0", 3, None),
    ("-1", 3, None),
    ("4", 3, None),
    ("1E1", 9, None),
    ("2.5", 3, None),
    ("1", 0, None),
    ("10000000000000000001", 3, None),
    ("1E19", 3, None),
    (".X.", 3, None),
];

#[test]
fn indexes_name_points(rt: HostRuntime) -> Result<(), Fail> {
    for (spelled, count, wanted) in INDEXES.iter() {
        let found = place_spelled(rt.alloc(), spelled, *count)?;
        assert_eq!(rt; found, Some(*wanted), "at {spelled}");
    }
    Ok(())
}

/// A coordinate of the grid; each table holds such.
fn coordinate(x: i32) -> i32
    ensures { unsigned_abs result ≤ grid_limit }
{
    if x > GRID_LIMIT {
        return GRID_LIMIT;
    }
    if x < -GRID_LIMIT {
        return -GRID_LIMIT;
    }
    x
}

fn point(p: [i32; 3]) -> Point
    ensures { IsGridPoint result }
{
    Point {
        x: coordinate(p[0]),
        y: coordinate(p[1]),
        z: coordinate(p[2]),
    }
}

fn points_at(alloc: Global, corners: &[[i32; 3]]) -> Result<Vec<Point>, AllocError>
    ensures { IfOk result (λ made. All IsGridPoint made.items) }
{
    let mut made = Vec::new(alloc);
    for corner in corners {
        made.push(point(*corner))?;
    }
    Ok(made)
}

/// The triangles of the set over these points.
fn triangles_in(
    alloc: Global,
    exchange: &Exchange,
    points: &[Point],
) -> Result<Option<Vec<Triangle>>, AllocError>
    requires { All IsGridPoint points.now }
{
    match exchange.look(2) {
        Some(set) => set_triangles(alloc, exchange, points, &set),
        None => Ok(None),
    }
}

/// The triangles of a set that is spelled so, over points at these corners.
fn triangles_of(
    alloc: Global,
    set: &[&str],
    corners: &[[i32; 3]],
) -> Result<Option<Vec<Triangle>>, BuildError> {
    let exchange = exchange_of(alloc, set)?;
    let made = triangles_at(alloc, &exchange, corners);
    drop(exchange);
    Ok(made?)
}

fn triangles_at(
    alloc: Global,
    exchange: &Exchange,
    corners: &[[i32; 3]],
) -> Result<Option<Vec<Triangle>>, AllocError> {
    let points = points_at(alloc, corners)?;
    let made = triangles_in(alloc, exchange, &points);
    drop(points);
    made
}

/// Points along a line: the coordinate is the place.
static LINE: [[i32; 3]; 9] = [
    [0, 0, 0],
    [1, 0, 0],
    [2, 0, 0],
    [3, 0, 0],
    [4, 0, 0],
    [5, 0, 0],
    [6, 0, 0],
    [7, 0, 0],
    [8, 0, 0],
];

static SHORT_LINE: [[i32; 3]; 4] = [[0, 0, 0], [1, 0, 0], [2, 0, 0], [3, 0, 0]];

/// The place of the point that all three corners of the one triangle are; -1 of others.
fn place_in(triangles: &[Triangle]) -> i32 {
    match triangles {
        [one] if one.a == one.b && one.b == one.c => one.a.x,
        _ => -1,
    }
}

/// The place of the point that all three corners of a set's one triangle are, by these numbers of the points; none where it has no
/// triangles.
fn place_by(
    alloc: Global,
    spelled: &str,
    numbers: &str,
    line: &[[i32; 3]],
) -> Result<Option<i32>, BuildError> {
    let parts = [
        POINTS,
        "IFCTRIANGULATEDFACESET(#1,$,$,((",
        spelled,
        ",",
        spelled,
        ",",
        spelled,
        ")),",
        numbers,
        ");",
    ];
    match triangles_of(alloc, &parts, line)? {
        Some(made) => {
            let place = place_in(made.as_slice());
            drop(made);
            Ok(Some(place))
        }
        None => Ok(None),
    }
}

/// An index as it is spelled, whether there are nine points, else four, and the place of the point by the numbers 4, 2 and 9.
static NUMBERED: [(&str, bool, Option<i32>); 6] = [
    ("1", false, Some(3)),
    ("2", false, Some(1)),
    ("3", false, None),
    ("3", true, Some(8)),
    ("4", true, None),
    ("0", true, None),
];

#[test]
fn numbers_of_points_are_followed(rt: HostRuntime) -> Result<(), Fail> {
    for (spelled, nine, wanted) in NUMBERED.iter() {
        let line = if *nine {
            LINE.as_slice()
        } else {
            SHORT_LINE.as_slice()
        };
        let place = place_by(rt.alloc(), spelled, "(4,2,9)", line)?;
        assert_eq!(rt; place, *wanted, "at {spelled}");
        let place = place_by(rt.alloc(), spelled, "()", line)?;
        assert!(rt; place.is_none(), "at {spelled}");
    }
    Ok(())
}

static CORNERS: [[i32; 3]; 3] = [[0, 0, 0], [100, 0, 0], [0, 100, 0]];

fn triangle(a: [i32; 3], b: [i32; 3], c: [i32; 3]) -> Triangle {
    Triangle {
        a: point(a),
        b: point(b),
        c: point(c),
    }
}

/// The triangles of a triangulated set of these rows, by these numbers of its points.
fn assert_triangles(
    rt: &impl Abort,
    alloc: Global,
    rows: &str,
    numbers: &str,
    wanted: Option<&[Triangle]>,
) -> Result<(), BuildError> {
    let parts = [
        POINTS,
        "IFCTRIANGULATEDFACESET(#1,$,$,(",
        rows,
        "),",
        numbers,
        ");",
    ];
    match triangles_of(alloc, &parts, &CORNERS)? {
        Some(made) => {
            assert_eq!(rt; Some(made.as_slice()), wanted);
            drop(made);
        }
        None => assert!(rt; wanted.is_none()),
    }
    Ok(())
}

#[test]
fn sets_become_triangles(rt: HostRuntime) -> Result<(), Fail> {
    let turned = triangle([0, 100, 0], [0, 0, 0], [100, 0, 0]);
    let flat = triangle([100, 0, 0], [100, 0, 0], [0, 0, 0]);
    let back = triangle([0, 0, 0], [0, 100, 0], [100, 0, 0]);
    let alloc = rt.alloc();
    assert_triangles(&rt, alloc, "(3,1,2),(2,2,1)", "$", Some(&[turned, flat]))?;
    assert_triangles(&rt, alloc, "(3,1,2)", "(3,2,1)", Some(&[back]))?;
    assert_triangles(&rt, alloc, "(3,1,2),(2,2,1),(2,3,4)", "$", None)?;
    Ok(())
}

/// A set over three points, which faces stand beside; whether an index is bad, and how many triangles there are.
static CASES: [(&str, &str, bool, u64); 15] = [
    (
        "IFCTRIANGULATEDFACESET(#1,$,$,((1,2,3),(3,2,1)),$)",
        "",
        false,
        2,
    ),
    (
        "IFCTRIANGULATEDFACESET(#1,$,$,((1,2,3),(3,2,0)))",
        "",
        true,
        2,
    ),
    (
        "IFCTRIANGULATEDFACESET(#1,$,$,((4,2,3),(3,2,1)),$)",
        "",
        true,
        2,
    ),
    (
        "IFCTRIANGULATEDFACESET(#1,$,$,((1,2,3)),(3,2,1))",
        "",
        false,
        1,
    ),
    (
        "IFCTRIANGULATEDFACESET(#1,$,$,((1,2,3)),(3,2,4))",
        "",
        true,
        1,
    ),
    (
        "IFCTRIANGULATEDFACESET(#1,$,$,((1,2,1)),(3,2,4))",
        "",
        true,
        1,
    ),
    (
        "IFCTRIANGULATEDFACESET(#1,$,$,((1,2,3)),(3,2))",
        "",
        true,
        1,
    ),
    (
        "IFCTRIANGULATEDFACESET(#1,$,$,((1,2,4)),(3,2,1,1))",
        "",
        false,
        1,
    ),
    ("IFCTRIANGULATEDFACESET(#1,$,$,((1,2,3)),())", "", true, 1),
    // a face that is listed twice counts twice
    (
        "IFCPOLYGONALFACESET(#1,$,(#3,#4,#3),$)",
        "#3=IFCINDEXEDPOLYGONALFACE((1,2,3,1,2));#4=IFCINDEXEDPOLYGONALFACE((3,2,1));",
        false,
        7,
    ),
    (
        "IFCPOLYGONALFACESET(#1,$,(#3,#4),$)",
        "#3=IFCINDEXEDPOLYGONALFACE((1,2,3));#4=IFCINDEXEDPOLYGONALFACE((3,2,1,4));",
        true,
        3,
    ),
    (
        "IFCPOLYGONALFACESET(#1,$,(#3),(2,1,3,2))",
        "#3=IFCINDEXEDPOLYGONALFACE((1,2,3,4));#4=IFCINDEXEDPOLYGONALFACE((9,9,9));",
        false,
        2,
    ),
    (
        "IFCPOLYGONALFACESET(#1,$,(#3),(2,1,3,0))",
        "#3=IFCINDEXEDPOLYGONALFACE((1,2,3));",
        true,
        1,
    ),
    // an inner loop of three corners adds five triangles
    (
        "IFCPOLYGONALFACESET(#1,$,(#3),$)",
        "#3=IFCINDEXEDPOLYGONALFACEWITHVOIDS((1,2,3),((1,2,3)));",
        false,
        6,
    ),
    (
        "IFCPOLYGONALFACESET(#1,$,(#3),$)",
        "#3=IFCINDEXEDPOLYGONALFACEWITHVOIDS((1,2,3),((1,2,4)));",
        true,
        6,
    ),
];

/// Whether an index of the set counts nothing, asked twice: the second time with what the first has learnt.
fn found_twice(
    alloc: Global,
    exchange: &Exchange,
    set: &InstanceRef<'_>,
) -> Result<[bool; 2], AllocError> {
    let mut learnt = Learnt::new(alloc);
    let found = has_bad_index(exchange, &mut learnt, set)?;
    let again = has_bad_index(exchange, &mut learnt, set)?;
    Ok([found, again])
}

/// Whether an index of the set is bad, twice, and how many triangles it has, by bounds that they meet and one that they don't.
fn assert_case(
    rt: &impl Abort,
    alloc: Global,
    exchange: &Exchange,
    bad: bool,
    count: u64,
) -> Result<(), AllocError> {
    match exchange.look(2) {
        Some(set) => {
            let found = found_twice(alloc, exchange, &set)?;
            assert_eq!(rt; found, [bad, bad]);
            assert_eq!(rt; triangle_count(exchange, &set, 7), Some(count));
            assert_eq!(rt; triangle_count(exchange, &set, count), Some(count));
            let fewer = count.saturating_sub(1);
            assert_eq!(rt; triangle_count(exchange, &set, fewer), None);
        }
        None => assert!(rt; false, "no set"),
    }
    Ok(())
}

#[test]
fn bad_indexes_and_counts_are_found(rt: HostRuntime) -> Result<(), Fail> {
    for (set, faces, bad, count) in CASES.iter() {
        let exchange = exchange_of(rt.alloc(), &[POINTS, *set, ";", *faces])?;
        let counted = assert_case(&rt, rt.alloc(), &exchange, *bad, *count);
        drop(exchange);
        counted?;
    }
    Ok(())
}

/// A square, and one in it.
static HOLED: [[i32; 3]; 8] = [
    [0, 0, 0],
    [300, 0, 0],
    [300, 300, 0],
    [0, 300, 0],
    [100, 100, 0],
    [200, 100, 0],
    [200, 200, 0],
    [100, 200, 0],
];

/// The triangles of the square with the other as its hole, in their order.
static HOLED_TRIANGLES: [[[i32; 3]; 3]; 8] = [
    [[0, 300, 0], [0, 0, 0], [100, 100, 0]],
    [[0, 300, 0], [100, 100, 0], [100, 200, 0]],
    [[0, 300, 0], [100, 200, 0], [200, 200, 0]],
    [[200, 100, 0], [100, 100, 0], [0, 0, 0]],
    [[200, 100, 0], [0, 0, 0], [300, 0, 0]],
    [[200, 200, 0], [200, 100, 0], [300, 0, 0]],
    [[200, 200, 0], [300, 0, 0], [300, 300, 0]],
    [[200, 200, 0], [300, 300, 0], [0, 300, 0]],
];

fn assert_holed(rt: &impl Abort, made: &[Triangle]) {
    assert_eq!(rt; made.len(), 8);
    for (i, corners) in HOLED_TRIANGLES.iter().enumerate() {
        match made.get(i) {
            Some(found) => {
                let wanted = triangle(corners[0], corners[1], corners[2]);
                assert_eq!(rt; *found, wanted);
            }
            None => assert!(rt; false, "no triangle {i}"),
        }
    }
}

#[test]
fn a_face_with_a_hole_is_cut(rt: HostRuntime) -> Result<(), Fail> {
    let parts = [
        POINTS,
        "IFCPOLYGONALFACESET(#1,$,(#3),$);",
        "#3=IFCINDEXEDPOLYGONALFACEWITHVOIDS((1,2,3,4),((5,6,7,8)));",
    ];
    match triangles_of(rt.alloc(), &parts, &HOLED)? {
        Some(made) => {
            assert_holed(&rt, &made);
            drop(made);
        }
        None => assert!(rt; false, "it is cut"),
    }
    Ok(())
}

/// Whether face 3 of the set can't be cut, and its loops can't be joined; there is no face 4.
fn assert_stuck(
    rt: &impl Abort,
    alloc: Global,
    exchange: &Exchange,
    points: &[Point],
    apart: bool,
) -> Result<(), AllocError>
    requires { All IsGridPoint points.now }
{
    match exchange.look(2) {
        Some(set) => {
            let stuck = least_stuck(alloc, exchange, points, &set)?;
            assert_eq!(rt; stuck, Some(3));
            let found = has_unbridged(alloc, exchange, points, &set, 3)?;
            assert_eq!(rt; found, apart);
            let other = has_unbridged(alloc, exchange, points, &set, 4)?;
            assert!(rt; !other);
        }
        None => assert!(rt; false, "no set"),
    }
    Ok(())
}

/// A face that can't be cut, and whether that is since its loops can't be joined.
static STUCK: [(&str, bool); 2] = [
    ("#3=IFCINDEXEDPOLYGONALFACE((1,3,2,4));", false),
    (
        "#3=IFCINDEXEDPOLYGONALFACEWITHVOIDS((5,6,7,8),((1,2,3,4)));",
        true,
    ),
];

#[test]
fn loops_that_cant_be_joined_are_told(rt: HostRuntime) -> Result<(), Fail> {
    let points = points_at(rt.alloc(), &HOLED)?;
    for (face, apart) in STUCK.iter() {
        let parts = [POINTS, "IFCPOLYGONALFACESET(#1,$,(#3),$);", *face];
        let exchange = exchange_of(rt.alloc(), &parts)?;
        let done = assert_stuck(&rt, rt.alloc(), &exchange, &points, *apart);
        drop(exchange);
        done?;
    }
    drop(points);
    Ok(())
}
