//! Axes by numbers.
use placement::{Axes, Axis};

/// Three axes: 1, 2 and 3 for x, y and z, and negative against them.
pub type Numbers = (i8, i8, i8);

/// The axis of a number.
pub fn axis(number: i8) -> Axis {
    Axis {
        direction: match number {
            1 | -1 => 0,
            2 | -2 => 1,
            _ => 2,
        },
        negative: number < 0,
    }
}

/// The axes with these numbers.
pub fn numbered(numbers: Option<Numbers>) -> Option<Axes> {
    let (x, y, z) = numbers?;
    Some(Axes {
        x: axis(x),
        y: axis(y),
        z: axis(z),
    })
}
