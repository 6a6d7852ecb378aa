//! Lengths on the grid of tenths of a millimetre, with expected values from hand work.
use bim_model::Mode;
use bim_text::Decimal;
use ifc_units::{FOOT, GridFault, INCH, Scale, to_grid};
use std::process::Abort;

enum Unit {
    Kilometres,
    Metres,
    Millimetres,
    Micrometres,
    Inches,
    Feet,
}

fn scale(unit: &Unit) -> Scale {
    let (factor, power) = match unit {
        Unit::Kilometres => (1, 6),
        Unit::Metres => (1, 3),
        Unit::Millimetres => (1, 0),
        Unit::Micrometres => (1, -3),
        Unit::Inches => (INCH, -1),
        Unit::Feet => (FOOT, -1),
    };
    Scale { factor, power }
}

/// A grid number.
type Number = Result<i32, GridFault>;

/// A length in a unit, and its grid number in exact mode and in snap mode.
static LENGTHS: [(&str, Unit, Number, Number); 40] = [
    ("2.9999999999999996", Unit::Metres, Ok(30_000), Ok(30_000)),
    ("3", Unit::Metres, Ok(30_000), Ok(30_000)),
    ("0.0005", Unit::Metres, Ok(5), Ok(5)),
    ("0.00005", Unit::Metres, Err(GridFault::OffGrid), Ok(1)),
    ("-0.00005", Unit::Metres, Err(GridFault::OffGrid), Ok(-1)),
    ("0.000049999", Unit::Metres, Err(GridFault::OffGrid), Ok(0)),
    ("12.5", Unit::Millimetres, Ok(125), Ok(125)),
    ("12.55", Unit::Millimetres, Err(GridFault::OffGrid), Ok(126)),
    (
        "-12.55",
        Unit::Millimetres,
        Err(GridFault::OffGrid),
        Ok(-126),
    ),
    (
        "12.549",
        Unit::Millimetres,
        Err(GridFault::OffGrid),
        Ok(125),
    ),
    ("7.001", Unit::Millimetres, Err(GridFault::OffGrid), Ok(70)),
    ("7.0009999", Unit::Millimetres, Ok(70), Ok(70)),
    ("6.999", Unit::Millimetres, Err(GridFault::OffGrid), Ok(70)),
    ("-6.9990001", Unit::Millimetres, Ok(-70), Ok(-70)),
    ("0", Unit::Kilometres, Ok(0), Ok(0)),
    ("1e-400", Unit::Micrometres, Ok(0), Ok(0)),
    ("800", Unit::Metres, Ok(8_000_000), Ok(8_000_000)),
    (
        "-800000.0001",
        Unit::Millimetres,
        Ok(-8_000_000),
        Ok(-8_000_000),
    ),
    (
        "800000.1",
        Unit::Millimetres,
        Err(GridFault::TooFar),
        Err(GridFault::TooFar),
    ),
    (
        "800000.05",
        Unit::Millimetres,
        Err(GridFault::OffGrid),
        Err(GridFault::TooFar),
    ),
    (
        "1e400",
        Unit::Kilometres,
        Err(GridFault::TooFar),
        Err(GridFault::TooFar),
    ),
    (
        "9999999999999999999999999999999999e-37",
        Unit::Millimetres,
        Ok(0),
        Ok(0),
    ),
    (
        "9999999999999999999999999999999999e-34",
        Unit::Millimetres,
        Ok(10),
        Ok(10),
    ),
    ("25.4", Unit::Micrometres, Err(GridFault::OffGrid), Ok(0)),
    ("1", Unit::Inches, Ok(254), Ok(254)),
    ("-1", Unit::Inches, Ok(-254), Ok(-254)),
    ("0.5", Unit::Inches, Ok(127), Ok(127)),
    ("0.25", Unit::Inches, Err(GridFault::OffGrid), Ok(64)),
    ("-0.25", Unit::Inches, Err(GridFault::OffGrid), Ok(-64)),
    ("1", Unit::Feet, Ok(3048), Ok(3048)),
    ("0.125", Unit::Feet, Ok(381), Ok(381)),
    ("0.1", Unit::Feet, Err(GridFault::OffGrid), Ok(305)),
    (
        "3333333333333333333333333333333333e-34",
        Unit::Feet,
        Ok(1016),
        Ok(1016),
    ),
    ("2624.671916", Unit::Feet, Ok(8_000_000), Ok(8_000_000)),
    (
        "2624.672244",
        Unit::Feet,
        Err(GridFault::TooFar),
        Err(GridFault::TooFar),
    ),
    (
        "2624.6722",
        Unit::Feet,
        Err(GridFault::OffGrid),
        Err(GridFault::TooFar),
    ),
    // a third of a grid number, and a bit more and a bit less than a hundredth of one, of 34 digits
    (
        "9999999999999999999999999999999999e-38",
        Unit::Feet,
        Err(GridFault::OffGrid),
        Ok(0),
    ),
    (
        "3280839895013123359580052493438321e-39",
        Unit::Feet,
        Err(GridFault::OffGrid),
        Ok(0),
    ),
    (
        "3280839895013123359580052493438320e-39",
        Unit::Feet,
        Ok(0),
        Ok(0),
    ),
    (
        "9999999999999999999999999999999999e-40",
        Unit::Feet,
        Ok(0),
        Ok(0),
    ),
];

fn assert_length(rt: &impl Abort, spelled: &str, unit: Scale, exact: Number, snap: Number) {
    match Decimal::read(spelled.as_bytes()) {
        Some(number) => {
            assert_eq!(rt; to_grid(number, unit, Mode::Exact), exact, "at {spelled}");
            assert_eq!(rt; to_grid(number, unit, Mode::Snap), snap, "at {spelled}");
        }
        None => assert!(rt; false, "no number at {spelled}"),
    }
}

#[test]
fn lengths_are_put_on_the_grid(rt: HostRuntime) {
    for (spelled, unit, exact, snap) in LENGTHS.iter() {
        assert_length(&rt, spelled, scale(unit), *exact, *snap);
    }
}
