//! The directions of a file.
ghost use Rattle.std.specs.Prelude.{◌≡◌, ◌<◌};
ghost use Rattle.placement.specs.Directions.{is_dwarfed, is_faint, sign, cleaned_component, cleaned};

use bim_text::Decimal;
use std::cmp::Ordering;

/// Three components, as they are given.
#[derive(Clone, Copy)]
pub struct Direction {
    pub x: Decimal,
    pub y: Decimal,
    pub z: Decimal,
}

/// Three components, each -1, 0 or 1.
#[derive(Clone, Copy)]
pub struct Vector {
    pub x: i8,
    pub y: i8,
    pub z: i8,
}

impl Direction {
    /// The signs of the components, where one is 0 that another exceeds a million times.
    pub fn cleaned(&self) -> Vector
        ensures { result ≡ cleaned self.now }
    {
        Vector {
            x: self.cleaned_component(&self.x),
            y: self.cleaned_component(&self.y),
            z: self.cleaned_component(&self.z),
        }
    }

    fn cleaned_component(&self, component: &Decimal) -> i8
        ensures { result ≡ cleaned_component self.now component.now }
    {
        if self.is_faint(component) {
            0
        } else {
            sign(component)
        }
    }

    fn is_faint(&self, component: &Decimal) -> bool
        ensures { result ≡ is_faint self.now component.now }
    {
        is_dwarfed(component, &self.x)
            || is_dwarfed(component, &self.y)
            || is_dwarfed(component, &self.z)
    }
}

/// Whether a million times the first is still smaller than the second.
fn is_dwarfed(small: &Decimal, great: &Decimal) -> bool
    ensures { result ≡ is_dwarfed small.now great.now }
{
    small.compare_size(great, 6) == Ordering::Less
}

fn sign(number: &Decimal) -> i8
    ensures { result ≡ sign number.now }
{
    if number.digits == 0 {
        0
    } else if number.negative {
        -1
    } else {
        1
    }
}
