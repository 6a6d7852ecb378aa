//! Polygons and their triangles, by hand and by another program.
use crate::sample_points::polygon;
use bim_model::GRID_LIMIT;
use ear_cut::{CutFault, Ear, MOST_CORNERS, cut};
use std::test::Fail;

/// A polygon and its triangles; none where the rule is stuck.
struct Case {
    corners: &'static [[i32; 3]],
    ears: &'static [[u32; 3]],
}

static CASES: [Case; 33] = [
    // An L with a corner that is not convex, in each view; then from behind.
    Case {
        corners: &[
            [0, 0, 0],
            [4000, 0, 0],
            [4000, 2000, 0],
            [2000, 2000, 0],
            [2000, 4000, 0],
            [0, 4000, 0],
        ],
        ears: &[[0, 1, 2], [0, 2, 3], [5, 0, 3], [3, 4, 5]],
    },
    Case {
        corners: &[
            [0, 0, 0],
            [0, 4000, 0],
            [0, 4000, 2000],
            [0, 2000, 2000],
            [0, 2000, 4000],
            [0, 0, 4000],
        ],
        ears: &[[0, 1, 2], [0, 2, 3], [5, 0, 3], [3, 4, 5]],
    },
    Case {
        corners: &[
            [0, 0, 0],
            [0, 0, 4000],
            [2000, 0, 4000],
            [2000, 0, 2000],
            [4000, 0, 2000],
            [4000, 0, 0],
        ],
        ears: &[[0, 1, 2], [0, 2, 3], [5, 0, 3], [3, 4, 5]],
    },
    Case {
        corners: &[
            [0, 4000, 0],
            [2000, 4000, 0],
            [2000, 2000, 0],
            [4000, 2000, 0],
            [4000, 0, 0],
            [0, 0, 0],
        ],
        ears: &[[5, 0, 1], [5, 1, 2], [5, 2, 3], [3, 4, 5]],
    },
    Case {
        corners: &[
            [0, 0, 4000],
            [0, 2000, 4000],
            [0, 2000, 2000],
            [0, 4000, 2000],
            [0, 4000, 0],
            [0, 0, 0],
        ],
        ears: &[[5, 0, 1], [5, 1, 2], [5, 2, 3], [3, 4, 5]],
    },
    Case {
        corners: &[
            [4000, 0, 0],
            [4000, 0, 2000],
            [2000, 0, 2000],
            [2000, 0, 4000],
            [0, 0, 4000],
            [0, 0, 0],
        ],
        ears: &[[5, 0, 1], [5, 1, 2], [5, 2, 3], [3, 4, 5]],
    },
    // A straight corner goes first; two in a run; one at each end of the list.
    Case {
        corners: &[
            [0, 0, 0],
            [1000, 0, 0],
            [2000, 0, 0],
            [2000, 2000, 0],
            [0, 2000, 0],
        ],
        ears: &[[0, 1, 2], [4, 0, 2], [2, 3, 4]],
    },
    Case {
        corners: &[
            [0, 0, 0],
            [1, 0, 0],
            [2, 0, 0],
            [3, 0, 0],
            [3, 3, 0],
            [0, 3, 0],
        ],
        ears: &[[0, 1, 2], [0, 2, 3], [5, 0, 3], [3, 4, 5]],
    },
    Case {
        corners: &[[1, 0, 0], [3, 0, 0], [3, 3, 0], [0, 3, 0], [0, 0, 0]],
        ears: &[[4, 0, 1], [4, 1, 2], [2, 3, 4]],
    },
    // Repeated points.
    Case {
        corners: &[[0, 0, 0], [0, 0, 0], [3, 0, 0], [3, 3, 0], [0, 3, 0]],
        ears: &[[4, 0, 1], [4, 1, 2], [2, 3, 4]],
    },
    Case {
        corners: &[
            [0, 0, 0],
            [3, 0, 0],
            [3, 3, 0],
            [3, 3, 0],
            [3, 3, 0],
            [0, 3, 0],
        ],
        ears: &[[1, 2, 3], [1, 3, 4], [5, 0, 1], [1, 4, 5]],
    },
    Case {
        corners: &[[5, 5, 5], [5, 5, 5], [5, 5, 5]],
        ears: &[[0, 1, 2]],
    },
    // A corner on the border of another corner's triangle blocks it, unless it stands at one of the three.
    Case {
        corners: &[[0, 0, 0], [4, 0, 0], [2, 2, 0], [4, 4, 0], [0, 4, 0]],
        ears: &[[0, 1, 2], [0, 2, 3], [0, 3, 4]],
    },
    Case {
        corners: &[
            [0, 0, 0],
            [6, 0, 0],
            [6, 6, 0],
            [3, 3, 0],
            [6, 0, 0],
            [0, 6, 0],
        ],
        ears: &[[3, 4, 5], [1, 2, 3], [1, 3, 5], [0, 1, 5]],
    },
    // Bow ties, and a polygon that goes round twice.
    Case {
        corners: &[[0, 0, 0], [2000, 2000, 0], [2000, 0, 0], [0, 2000, 0]],
        ears: &[],
    },
    Case {
        corners: &[[0, 0, 0], [4, 4, 0], [4, 0, 0], [0, 2, 0]],
        ears: &[],
    },
    Case {
        corners: &[
            [0, 0, 0],
            [9, 0, 0],
            [9, 9, 0],
            [0, 9, 0],
            [1, 2, 0],
            [7, 1, 0],
            [8, 8, 0],
            [1, 7, 0],
        ],
        ears: &[
            [4, 5, 6],
            [4, 6, 7],
            [0, 1, 2],
            [3, 4, 7],
            [7, 0, 2],
            [2, 3, 7],
        ],
    },
    // No area: on one line, there and back, and in space.
    Case {
        corners: &[[0, 0, 0], [1, 1, 1], [3, 3, 3], [2, 2, 2]],
        ears: &[[3, 0, 1], [1, 2, 3]],
    },
    Case {
        corners: &[[0, 0, 0], [2, 0, 0], [2, 2, 0], [2, 0, 0]],
        ears: &[[3, 0, 1], [1, 2, 3]],
    },
    Case {
        corners: &[[-2, 2, -1], [2, -1, 3], [-1, 2, 0], [1, -1, 2]],
        ears: &[],
    },
    // As large as the grid.
    Case {
        corners: &[
            [-GRID_LIMIT, -GRID_LIMIT, GRID_LIMIT],
            [GRID_LIMIT, -GRID_LIMIT, GRID_LIMIT],
            [GRID_LIMIT, GRID_LIMIT, GRID_LIMIT],
            [-GRID_LIMIT, GRID_LIMIT, GRID_LIMIT],
        ],
        ears: &[[3, 0, 1], [1, 2, 3]],
    },
    Case {
        corners: &[
            [-GRID_LIMIT, -GRID_LIMIT, -GRID_LIMIT],
            [GRID_LIMIT, GRID_LIMIT, -GRID_LIMIT],
            [GRID_LIMIT, GRID_LIMIT, GRID_LIMIT],
            [-GRID_LIMIT, -GRID_LIMIT, GRID_LIMIT],
        ],
        ears: &[[3, 0, 1], [1, 2, 3]],
    },
    // Polygons of space worked out by another program.
    Case {
        corners: &[
            [1253, -1222, 1250],
            [2471, -969, 2468],
            [-1634, -479, -1637],
            [-689, 2864, -692],
            [-130, 1021, -133],
            [379, 1828, 376],
            [1778, 3073, 1775],
            [2043, 2777, 2040],
        ],
        ears: &[],
    },
    Case {
        corners: &[
            [326, -98, -95],
            [680, -743, -740],
            [25, -940, -937],
            [-686, -972, -969],
            [-872, -249, -246],
            [190, 293, 296],
            [-642, 298, 301],
            [124, -745, -742],
            [-609, -885, -882],
            [-283, -932, -929],
        ],
        ears: &[],
    },
    Case {
        corners: &[
            [14, 20, 13],
            [9, 15, 8],
            [-2, 37, -3],
            [-27, 12, -28],
            [-33, -4, -34],
            [-12, -8, -13],
            [-7, -8, -8],
            [-8, -10, -9],
            [-4, -10, -5],
            [-1, -23, -2],
        ],
        ears: &[
            [9, 0, 1],
            [9, 1, 2],
            [2, 3, 4],
            [2, 4, 5],
            [2, 5, 6],
            [6, 7, 8],
            [2, 6, 8],
            [2, 8, 9],
        ],
    },
    Case {
        corners: &[
            [-52, 24, 5],
            [18, -11, 24],
            [30, -17, 7],
            [52, -28, 2],
            [12, -8, -7],
            [38, -21, -20],
            [-62, 29, -8],
            [-38, 17, -8],
        ],
        ears: &[
            [7, 0, 1],
            [7, 1, 2],
            [7, 2, 3],
            [7, 3, 4],
            [7, 4, 5],
            [5, 6, 7],
        ],
    },
    Case {
        corners: &[
            [4, 7, -10],
            [3, 6, -5],
            [4, 7, 1],
            [7, 10, 9],
            [-12, -9, -8],
            [5, 8, -5],
            [1, 4, 10],
            [-2, 1, 0],
        ],
        ears: &[
            [7, 0, 1],
            [7, 1, 2],
            [7, 2, 3],
            [7, 3, 4],
            [7, 4, 5],
            [5, 6, 7],
        ],
    },
    Case {
        corners: &[
            [5, 3, 3],
            [1, 2, -1],
            [0, -5, -2],
            [0, -4, -2],
            [1, -3, -1],
            [2, -4, 0],
            [2, -3, 0],
            [2, 0, 0],
        ],
        ears: &[],
    },
    Case {
        corners: &[
            [-1, -7, 5],
            [-2, 1, 1],
            [-6, -1, 2],
            [-2, 5, -1],
            [-3, 9, -3],
            [-3, 11, -4],
            [0, 13, -5],
            [2, 3, 0],
            [6, -3, 3],
            [5, -7, 5],
        ],
        ears: &[
            [9, 0, 1],
            [1, 2, 3],
            [9, 1, 3],
            [9, 3, 4],
            [9, 4, 5],
            [5, 6, 7],
            [9, 5, 7],
            [7, 8, 9],
        ],
    },
    Case {
        corners: &[
            [-14, -64, 34],
            [-11, -64, 34],
            [-7, -52, 28],
            [-23, -24, 14],
            [34, 40, -18],
            [26, 16, -6],
            [20, 8, -2],
            [30, -28, 16],
            [9, -64, 34],
            [3, -46, 25],
        ],
        ears: &[],
    },
    Case {
        corners: &[
            [-1, 1, -2],
            [1, 0, 1],
            [-3, 2, -2],
            [3, -1, -2],
            [5, -2, -2],
            [-3, 2, 0],
            [3, -1, 1],
            [5, -2, 2],
        ],
        ears: &[],
    },
    Case {
        corners: &[
            [-8, 3, -4],
            [8, -5, 0],
            [12, -7, 1],
            [2, -2, 3],
            [0, -1, 4],
            [-2, 0, 4],
            [-18, 8, 0],
        ],
        ears: &[[0, 1, 2], [6, 0, 2], [6, 2, 3], [6, 3, 4], [4, 5, 6]],
    },
    // An outline that winds round twice and has no reflex corner: convex corners lie in triangles all the same.
    Case {
        corners: &[
            [28, 9, 0],
            [3, 14, 0],
            [4, -3, 0],
            [9, 3, 0],
            [-1, -6, 0],
            [18, -17, 0],
        ],
        ears: &[[1, 2, 3], [0, 1, 3], [5, 0, 3], [3, 4, 5]],
    },
];

/// Worked out by hand and by another program.
#[test]
fn polygons_are_cut_by_the_rule(rt: HostRuntime) -> Result<(), Fail> {
    for case in CASES.iter() {
        let points = polygon(rt.alloc(), case.corners)?;
        assert!(rt; points.len() >= 3 && points.len() <= MOST_CORNERS);
        let mut wanted = Vec::new(rt.alloc());
        for ear in case.ears {
            wanted.push(Ear {
                a: ear[0],
                b: ear[1],
                c: ear[2],
            })?;
        }
        match cut(rt.alloc(), &points) {
            Ok(ears) => assert_eq!(rt; ears.as_slice(), wanted.as_slice()),
            Err(fault) => {
                assert_eq!(rt; fault, CutFault::Stuck);
                assert_eq!(rt; wanted.len(), 0, "{points:?}");
            }
        }
    }
    Ok(())
}

/// Which polygon a large case is.
#[derive(Clone, Copy)]
enum Outline {
    /// On a parabola.
    Convex,
    /// A saw above a straight line.
    Comb,
    /// A strip that winds round and back.
    Spiral,
}

/// The i-th of a thousand corners.
fn corner_of(kind: Outline, i: i32) -> [i32; 3] {
    match kind {
        Outline::Convex => [i, i.wrapping_mul(i), 0],
        Outline::Comb if i == 998 => [9970, -1000, 0],
        Outline::Comb if i == 999 => [0, -1000, 0],
        Outline::Comb if i % 2 == 0 => [i.wrapping_mul(10), 0, 0],
        Outline::Comb => [i.wrapping_mul(10), 1000, 0],
        Outline::Spiral if i < 500 => arm(i, i.wrapping_mul(10).wrapping_add(20)),
        Outline::Spiral => {
            let turn = 999i32.wrapping_sub(i);
            arm(turn, turn.wrapping_mul(10).wrapping_add(15))
        }
    }
}

/// The point at this distance from the origin, a quarter further for each turn.
fn arm(turn: i32, distance: i32) -> [i32; 3] {
    match turn.wrapping_rem(4) {
        0 => [distance, 0, 0],
        1 => [0, distance, 0],
        2 => [0i32.wrapping_sub(distance), 0, 0],
        _ => [0, 0i32.wrapping_sub(distance), 0],
    }
}

/// A thousand corners: another program folded the places in its lists to these numbers.
#[test]
fn a_thousand_corners_are_cut(rt: HostRuntime) -> Result<(), Fail> {
    for (kind, wanted) in [
        (Outline::Convex, 713970686u32),
        (Outline::Comb, 1342372086),
        (Outline::Spiral, 974730572),
    ] {
        let mut corners = Vec::new(rt.alloc());
        for i in 0..1000 {
            corners.push(corner_of(kind, i))?;
        }
        let points = polygon(rt.alloc(), &corners)?;
        assert!(rt; points.len() >= 3 && points.len() <= MOST_CORNERS);
        let mut folded: u32 = 0;
        match cut(rt.alloc(), &points) {
            Ok(ears) => {
                for ear in &ears {
                    for place in [ear.a, ear.b, ear.c] {
                        folded = folded.wrapping_mul(31).wrapping_add(place);
                    }
                }
            }
            Err(_) => folded = 0,
        }
        assert_eq!(rt; folded, wanted);
    }
    Ok(())
}
