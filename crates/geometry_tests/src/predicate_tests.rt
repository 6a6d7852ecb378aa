//! Predicates on points, edges and triangles, by hand.
ghost use Rattle.std.specs.Prelude.{◌≤◌, unsigned_abs};
ghost use Rattle.bim_model.specs.Points.{grid_limit};
ghost use Rattle.tri_exact.specs.GridVectors.{IsPoint};

use bim_model::GRID_LIMIT;
use tri_exact::{
    DISTANCE_LIMIT, V3, cross, dot, edge_edge_within, orient, point_edge_within, point_face_within,
    segment_crosses,
};

const LIMIT: i64 = GRID_LIMIT as i64;

/// A coordinate of the grid; each table holds such.
fn coordinate(x: i64) -> i64
    ensures { unsigned_abs result ≤ grid_limit }
{
    if x > LIMIT {
        return LIMIT;
    }
    if x < -LIMIT {
        return -LIMIT;
    }
    x
}

fn point(p: [i64; 3]) -> V3
    ensures { IsPoint result }
{
    V3 {
        x: coordinate(p[0]),
        y: coordinate(p[1]),
        z: coordinate(p[2]),
    }
}

#[test]
fn products_are_as_by_hand(rt: HostRuntime) {
    let a = V3 { x: 1, y: 2, z: 3 };
    let b = V3 { x: 4, y: -5, z: 6 };
    assert_eq!(rt; dot(a, b), 12);
    let c = cross(a, b);
    assert_eq!(rt; (c.x, c.y, c.z), (27, 6, -13));
    let o = V3 { x: 0, y: 0, z: 0 };
    let x = V3 { x: 2, y: 0, z: 0 };
    let y = V3 { x: 0, y: 3, z: 0 };
    let z = V3 { x: 0, y: 0, z: 5 };
    assert_eq!(rt; orient(o, x, y, z), 30);
    assert_eq!(rt; orient(o, y, x, z), -30);
}

/// The least whole distance from the point to the edge.
#[test]
fn points_are_near_edges_from_their_distance_on(rt: HostRuntime) {
    let rows = [
        ([0, 0, 7], [-5, 0, 0], [5, 0, 0], 7_u32),
        ([-8, 4, 0], [-5, 0, 0], [5, 0, 0], 5),
        ([8, -4, 0], [-5, 0, 0], [5, 0, 0], 5),
        ([3, 0, 0], [-5, 0, 0], [5, 0, 0], 0),
        ([3, 3, 8], [3, 3, 3], [3, 3, 3], 5),
        ([1, 1, 0], [0, 0, 0], [3, 3, 3], 1),
        ([0, 0, 10000], [-LIMIT, 0, 0], [LIMIT, 0, 0], 10000),
    ];
    for (p, a, b, least) in rows {
        if least > DISTANCE_LIMIT {
            continue;
        }
        assert!(rt;
            point_edge_within(point(p), point(a), point(b), least),
            "{p:?}"
        );
        if least > 0 {
            assert!(rt;
                !point_edge_within(point(p), point(a), point(b), least - 1),
                "{p:?}"
            );
        }
    }
}

/// The least whole distance of two edges: crossing over each other, parallel, in one line, touching, points,
/// at 1/√2, at √3, and as long as the grid.
#[test]
fn edges_are_near_edges_from_their_distance_on(rt: HostRuntime) {
    let rows = [
        ([-10, 0, 0], [10, 0, 0], [0, -10, 5], [0, 10, 5], 5_u32),
        ([0, 0, 0], [10, 0, 0], [2, 3, 0], [8, 3, 0], 3),
        ([0, 0, 0], [10, 0, 0], [14, 0, 0], [20, 0, 0], 4),
        ([0, 0, 0], [10, 0, 0], [10, 0, 0], [10, 5, 0], 0),
        ([1, 2, 3], [1, 2, 3], [4, 6, 3], [4, 6, 3], 5),
        ([0, 0, 0], [10, 10, 0], [1, 0, 0], [11, 10, 0], 1),
        ([0, 0, 0], [-5, 0, 0], [1, 1, 1], [9, 9, 9], 2),
        (
            [-LIMIT, 0, 0],
            [LIMIT, 0, 0],
            [0, -LIMIT, 10000],
            [0, LIMIT, 10000],
            10000,
        ),
    ];
    for (a, b, p, q, least) in rows {
        if least > DISTANCE_LIMIT {
            continue;
        }
        assert!(rt;
            edge_edge_within(point(a), point(b), point(p), point(q), least),
            "{a:?}"
        );
        if least > 0 {
            assert!(rt;
                !edge_edge_within(point(a), point(b), point(p), point(q), least - 1),
                "{a:?}"
            );
        }
    }
}

/// Points over a triangle: inside, at an edge, at a corner, and those whose foot lies outside at any distance;
/// segments that go through it, end on it, lie in its plane or pass it.
#[test]
fn points_and_segments_meet_a_triangle(rt: HostRuntime) {
    let a = V3 { x: 0, y: 0, z: 0 };
    let b = V3 { x: 100, y: 0, z: 0 };
    let c = V3 { x: 0, y: 100, z: 0 };
    for (p, d, want) in [
        ([10, 10, 9], 9_u32, true),
        ([10, 10, 9], 8, false),
        ([50, 50, -3], 3, true),
        ([0, 0, 4], 4, true),
        ([60, 60, 0], 10000, false),
        ([-1, 0, 4], 10000, false),
    ] {
        if d > DISTANCE_LIMIT {
            continue;
        }
        assert_eq!(rt; point_face_within(point(p), a, b, c, d), want, "{p:?}");
    }
    for (p, q, want) in [
        ([10, 10, -5], [10, 10, 5], true),
        ([10, 10, 5], [10, 10, -5], true),
        ([10, 10, 1], [10, 10, 5], false),
        ([10, 10, 0], [10, 10, 9], true),
        ([-5, 0, -5], [5, 0, 5], true),
        ([60, 60, -5], [60, 60, 5], false),
        ([-10, 10, 0], [10, 10, 0], true),
        ([10, 10, 0], [20, 20, 0], true),
        ([200, 0, 0], [0, 200, 0], false),
        ([100, -10, 0], [100, 10, 0], true),
        ([10, 10, 0], [10, 10, 0], true),
        ([10, 10, 1], [10, 10, 1], false),
    ] {
        assert_eq!(rt;
            segment_crosses(point(p), point(q), a, b, c),
            want,
            "{p:?} {q:?}"
        );
    }
}
