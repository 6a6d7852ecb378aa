//! Axes of placements, and points that frames carry, with expected values from hand work.
use crate::sample_axes::{Numbers, numbered};
use crate::sample_files::exchange_of;
use bim_model::{BuildError, Point};
use placement::{Axes, Axis, Frame, Offset, axes_of};
use std::alloc::Global;
use std::test::Fail;

/// Two directions as they are spelled, the axis and the reference, and the axes that they give: all rotations along the grid, and what is
/// absent, cleaned or oblique.
static TURNS: [(&str, &str, Option<Numbers>); 39] = [
    ("(1.,0.,0.)", "(0.,1.,0.)", Some((2, 3, 1))),
    ("(1.,0.,0.)", "(0.,-1.,0.)", Some((-2, -3, 1))),
    ("(1.,0.,0.)", "(0.,0.,1.)", Some((3, -2, 1))),
    ("(1.,0.,0.)", "(0.,0.,-1.)", Some((-3, 2, 1))),
    ("(-1.,0.,0.)", "(0.,1.,0.)", Some((2, -3, -1))),
    ("(-1.,0.,0.)", "(0.,-1.,0.)", Some((-2, 3, -1))),
    ("(-1.,0.,0.)", "(0.,0.,1.)", Some((3, 2, -1))),
    ("(-1.,0.,0.)", "(0.,0.,-1.)", Some((-3, -2, -1))),
    ("(0.,1.,0.)", "(1.,0.,0.)", Some((1, -3, 2))),
    ("(0.,1.,0.)", "(-1.,0.,0.)", Some((-1, 3, 2))),
    ("(0.,1.,0.)", "(0.,0.,1.)", Some((3, 1, 2))),
    ("(0.,1.,0.)", "(0.,0.,-1.)", Some((-3, -1, 2))),
    ("(0.,-1.,0.)", "(1.,0.,0.)", Some((1, 3, -2))),
    ("(0.,-1.,0.)", "(-1.,0.,0.)", Some((-1, -3, -2))),
    ("(0.,-1.,0.)", "(0.,0.,1.)", Some((3, -1, -2))),
    ("(0.,-1.,0.)", "(0.,0.,-1.)", Some((-3, 1, -2))),
    ("(0.,0.,1.)", "(1.,0.,0.)", Some((1, 2, 3))),
    ("(0.,0.,1.)", "(-1.,0.,0.)", Some((-1, -2, 3))),
    ("(0.,0.,1.)", "(0.,1.,0.)", Some((2, -1, 3))),
    ("(0.,0.,1.)", "(0.,-1.,0.)", Some((-2, 1, 3))),
    ("(0.,0.,-1.)", "(1.,0.,0.)", Some((1, -2, -3))),
    ("(0.,0.,-1.)", "(-1.,0.,0.)", Some((-1, 2, -3))),
    ("(0.,0.,-1.)", "(0.,1.,0.)", Some((2, 1, -3))),
    ("(0.,0.,-1.)", "(0.,-1.,0.)", Some((-2, -1, -3))),
    ("$", "$", Some((1, 2, 3))),
    ("(0.,0.,-1.)", "$", Some((1, -2, -3))),
    ("(2.5,0.,0.)", "$", Some((2, 3, 1))),
    ("$", "(0.,-3.,9.)", Some((-2, 1, 3))),
    ("(1.E-7,0.,1.)", "(7.,1.E-6,0.)", Some((1, 2, 3))),
    ("(0.,0.,1.)", "(1.,0.000000999,5.)", Some((1, 2, 3))),
    ("(0.,0.,1.)", "(1.,0.000000999,0.)", Some((1, 2, 3))),
    ("(0.000001,0.,1.)", "(1.,0.,0.)", None),
    ("(0.,0.,1.)", "(1.,0.000001,0.)", None),
    ("(0.,0.,0.)", "(1.,0.,0.)", None),
    ("(0.,0.,1.)", "(0.,0.,1.)", None),
    ("(0.,1.,1.)", "(1.,0.,0.)", None),
    ("(0.,0.,1.)", "(0.6,0.8,0.)", None),
    ("(0.,0.,1.)", "(1.,0.0000045,5.)", Some((1, 2, 3))),
    ("(0.,0.,1.)", "(1.,0.0000045,0.)", None),
];

/// What names a direction; `$` of one that is absent.
fn named<'a>(direction: &str, name: &'a str) -> &'a str {
    if direction == "$" { "$" } else { name }
}

/// The ratios of a direction, and some of one that is absent.
fn ratios(direction: &str) -> &str {
    if direction == "$" {
        "(1.,1.,1.)"
    } else {
        direction
    }
}

/// The axes of a placement whose directions are spelled so; `$` for one that is absent.
fn axes_spelled(alloc: Global, axis: &str, reference: &str) -> Result<Option<Axes>, BuildError> {
    let parts = [
        "#1=IFCAXIS2PLACEMENT3D(#4,",
        named(axis, "#2"),
        ",",
        named(reference, "#3"),
        ");#2=IFCDIRECTION(",
        ratios(axis),
        ");#3=IFCDIRECTION(",
        ratios(reference),
        ");",
    ];
    let exchange = exchange_of(alloc, &parts)?;
    let found = axes_of(&exchange, 1);
    drop(exchange);
    Ok(found)
}

#[test]
fn axes_are_turned(rt: HostRuntime) -> Result<(), Fail> {
    for (axis, reference, wanted) in TURNS.iter() {
        let found = axes_spelled(rt.alloc(), axis, reference)?;
        assert_eq!(rt; found, numbered(*wanted), "at {axis} {reference}");
    }
    Ok(())
}

#[test]
fn points_are_carried(rt: HostRuntime) {
    let point = Point { x: 1, y: 2, z: 3 };
    assert_eq!(rt; Frame::identity().place(point), Some(point));
    let outer = Frame {
        x: Axis {
            direction: 1,
            negative: false,
        },
        y: Axis {
            direction: 0,
            negative: true,
        },
        z: Axis {
            direction: 2,
            negative: false,
        },
        offset: Offset {
            x: 100,
            y: 200,
            z: 300,
        },
    };
    let inner = Frame {
        x: Axis {
            direction: 2,
            negative: false,
        },
        y: Axis {
            direction: 0,
            negative: false,
        },
        z: Axis {
            direction: 1,
            negative: false,
        },
        offset: Offset {
            x: 10,
            y: 20,
            z: 8_000_000,
        },
    };
    assert_eq!(rt;
        outer.place(point),
        Some(Point {
            x: 98,
            y: 201,
            z: 303
        })
    );
    assert_eq!(rt; inner.place(point), None);
    let both = outer.then(&inner);
    assert_eq!(rt;
        both.offset,
        Offset {
            x: 80,
            y: 210,
            z: 8_000_300
        }
    );
    assert_eq!(rt;
        both.place(Point {
            x: -301,
            y: 0,
            z: 0
        }),
        Some(Point {
            x: 80,
            y: 210,
            z: 7_999_999
        })
    );
    assert_eq!(rt;
        both.place(Point {
            x: -299,
            y: 0,
            z: 0
        }),
        None
    );
}
