//! Axes and frames of operators, with expected values from hand work.
use crate::sample_axes::{Numbers, axis, numbered};
use crate::sample_files::exchange_of;
use bim_model::{BuildError, Mode};
use ifc_units::Scale;
use p21_reader::Exchange;
use placement::{Axes, Frame, Offset, operator_axes, operator_frame};
use std::alloc::Global;
use std::process::Abort;
use std::test::Fail;

/// Three directions as they are spelled, and the axes that they give.
static OPERATED: [(&str, &str, &str, Option<Numbers>); 22] = [
    ("$", "$", "$", Some((1, 2, 3))),
    // a `*` counts as absent
    ("*", "*", "*", Some((1, 2, 3))),
    // mirrored
    ("(1.,0.,0.)", "(0.,-1.,0.)", "(0.,0.,1.)", Some((1, -2, 3))),
    ("(-2.,0.,0.)", "(0.,3.,0.)", "(0.,0.,0.5)", Some((-1, 2, 3))),
    ("(0.,0.,1.)", "(1.,0.,0.)", "(0.,-1.,0.)", Some((3, 1, -2))),
    (
        "(0.,0.,1.)",
        "(-1.,0.,0.)",
        "(0.,-1.,0.)",
        Some((3, -1, -2)),
    ),
    // an absent Axis2 is y, though this mirrors
    ("(1.,0.,0.)", "$", "(0.,0.,-1.)", Some((1, 2, -3))),
    // an absent Axis2 where z or x lies along y
    ("(0.,0.,1.)", "$", "(0.,1.,0.)", Some((3, 1, 2))),
    ("$", "$", "(0.,-1.,0.)", Some((1, 3, -2))),
    ("(0.,1.,0.)", "$", "$", Some((2, -1, 3))),
    // an absent Axis1 where z lies along x
    ("$", "$", "(1.,0.,0.)", Some((2, 3, 1))),
    ("$", "$", "(-1.,0.,0.)", Some((2, -3, -1))),
    ("$", "(0.,0.,-1.)", "(1.,0.,0.)", Some((2, -3, 1))),
    // what lies along z and x is taken away
    ("(1.,0.,7.)", "(0.6,0.8,5.)", "$", Some((1, 2, 3))),
    ("(1.,0.,0.)", "(5.,0.,-1.)", "(0.,1.,0.)", Some((1, -3, 2))),
    // nothing is left of Axis1, and of Axis2
    ("(0.,0.,1.)", "$", "(0.,0.,1.)", None),
    ("$", "(0.,0.,1.)", "$", None),
    ("$", "(1.,0.,0.)", "$", None),
    ("$", "(1.,0.0000009,0.)", "$", None),
    // oblique
    ("(0.6,0.8,0.)", "$", "$", None),
    ("$", "$", "(0.,1.,1.)", None),
    // no three numbers
    ("$", "(0.,1.)", "$", None),
];

fn is_absent(direction: &str) -> bool {
    direction == "$" || direction == "*"
}

/// What names a direction; of one that is absent, itself.
fn named<'a>(direction: &'a str, name: &'a str) -> &'a str {
    if is_absent(direction) {
        direction
    } else {
        name
    }
}

/// A text of a direction that is there.
fn there<'a>(direction: &str, text: &'a str) -> &'a str {
    if is_absent(direction) { "" } else { text }
}

/// The axes of an operator whose directions are spelled so; each that is there has an instance.
fn axes_spelled<'x>(
    alloc: Global,
    x: &'x str,
    y: &'x str,
    z: &'x str,
) -> Result<Option<Axes>, BuildError> {
    let parts = [
        "#1=IFCCARTESIANTRANSFORMATIONOPERATOR3D(",
        named(x, "#3"),
        ",",
        named(y, "#4"),
        ",#2,$,",
        named(z, "#5"),
        ");",
        there(x, "#3=IFCDIRECTION("),
        there(x, x),
        there(x, ");"),
        there(y, "#4=IFCDIRECTION("),
        there(y, y),
        there(y, ");"),
        there(z, "#5=IFCDIRECTION("),
        there(z, z),
        there(z, ");"),
    ];
    let exchange = exchange_of(alloc, &parts)?;
    let found = operator_axes(&exchange, 1);
    drop(exchange);
    Ok(found)
}

#[test]
fn axes_of_operators_are_read(rt: HostRuntime) -> Result<(), Fail> {
    for (x, y, z, wanted) in OPERATED.iter() {
        let found = axes_spelled(rt.alloc(), x, y, z)?;
        assert_eq!(rt; found, numbered(*wanted), "at {x} {y} {z}");
    }
    Ok(())
}

/// A mirrored operator, one whose last attributes are missing, one whose origin is 801 metres away, and one with no origin.
static OPERATORS: &str =
    "#1=IFCCARTESIANTRANSFORMATIONOPERATOR3D(#31,$,#21,1.,$);#2=IFCCARTESIANTRANSFORMATIONOPERATOR3D($,$,#21);\
    #3=IFCCARTESIANTRANSFORMATIONOPERATOR3D($,$,#22,$,$);#4=IFCCARTESIANTRANSFORMATIONOPERATOR3D($,$,$,$,$);\
    #21=IFCCARTESIANPOINT((1.,2.,-3.));#22=IFCCARTESIANPOINT((0.,801.,0.));#31=IFCDIRECTION((-1.,0.,0.));";

/// The frame of an operator in metres.
fn frame_of(exchange: &Exchange, id: u64) -> Option<Frame> {
    let metres = Scale {
        factor: 1,
        power: 3,
    };
    operator_frame(exchange, id, metres, Mode::Exact)
}

/// The frame of an operator whose x axis has this number, and whose origin is that of the sample.
fn frame_along(x: i8) -> Frame {
    Frame {
        x: axis(x),
        y: axis(2),
        z: axis(3),
        offset: Offset {
            x: 10_000,
            y: 20_000,
            z: -30_000,
        },
    }
}

fn assert_frames(rt: &impl Abort, exchange: &Exchange) {
    assert_eq!(rt; frame_of(exchange, 1), Some(frame_along(-1)));
    assert_eq!(rt; frame_of(exchange, 2), Some(frame_along(1)));
    for id in 3..6 {
        assert!(rt; frame_of(exchange, id).is_none(), "at {id}");
    }
}

#[test]
fn frames_of_operators_are_read(rt: HostRuntime) -> Result<(), Fail> {
    let exchange = exchange_of(rt.alloc(), &[OPERATORS])?;
    assert_frames(&rt, &exchange);
    drop(exchange);
    Ok(())
}
