//! The filter as it is defined, box by box.
ghost use Rattle.std.specs.Prelude.{◌≡◌, ◌<◌, ◌^◌, length, nat_le, IfOk};
ghost use Rattle.bim_model.specs.Gaps.{gap, is_within};
ghost use Rattle.box_lanes.specs.BoxPlaces.{places_within};

use bim_model::Extent;
use std::alloc::{AllocError, Global};

/// Whether the gap of two spans of an axis is at most `grow`.
fn is_close(low: i32, high: i32, other_low: i32, other_high: i32, grow: u32) -> bool
    ensures { result ≡ nat_le (gap low high other_low other_high) grow }
{
    let above = i64::from(low) - i64::from(other_high);
    let below = i64::from(other_low) - i64::from(high);
    let grow = i64::from(grow);
    above <= grow && below <= grow
}

/// Whether the gap of the box to the probe is at most `grow` on each axis.
fn is_within(probe: &Extent, grow: u32, extent: &Extent) -> bool
    ensures { result ≡ is_within probe.now grow extent.now }
{
    let (low, high) = (&extent.low, &extent.high);
    is_close(low.x, high.x, probe.low.x, probe.high.x, grow)
        && is_close(low.y, high.y, probe.low.y, probe.high.y, grow)
        && is_close(low.z, high.z, probe.low.z, probe.high.z, grow)
}

/// The places, from 0 and rising, of the boxes whose gap to the probe is at most `grow` grid numbers on each axis,
/// box by box. There are fewer than 2^32 boxes. An error if memory runs out.
pub fn places_within(
    alloc: Global,
    boxes: &[Extent],
    probe: &Extent,
    grow: u32,
) -> Result<Vec<u32>, AllocError>
    requires { length boxes.now < 2 ^ 32 }
    ensures { IfOk result (λ places. places.items ≡ places_within probe.now grow boxes.now) }
{
    let mut places = Vec::new(alloc);
    for (place, extent) in boxes.iter().enumerate() {
        if is_within(probe, grow, extent) {
            places.push(place as u32)?;
        }
    }
    Ok(places)
}
