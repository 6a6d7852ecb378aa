//! What a file says of points and directions.
ghost use Rattle.std.specs.Prelude.{◌≡◌, ℕ, IfSome, IfNone, option_map};
ghost use Rattle.p21_values.specs.declared.value.Value21.{Value21};
ghost use Rattle.placement.specs.Directions.{IsDirection, three_numbers, coordinates, numbers_of};
ghost use Rattle.placement.specs.inner.SpelledTriples.{spelled_of};
ghost use Rattle.placement.specs.declared.direction.Direction.{Direction};

use crate::direction::Direction;
use bim_text::Decimal;
use p21_table::{Exchange, InstanceRef, Values};

/// The spelled numbers of a point or a direction.
#[derive(Clone, Copy)]
pub struct Numbers<'a> {
    pub x: &'a [u8],
    pub y: &'a [u8],
    pub z: &'a [u8],
}

/// The numbers of the point or the direction of that number.
pub fn numbers_of(exchange: &Exchange, id: u64) -> Option<Numbers<'_>>
    ensures { option_map spelled_of result ≡ numbers_of exchange.now id }
{
    let instance = exchange.look(id)?;
    coordinates(&instance)
}

fn coordinates<'a>(instance: &InstanceRef<'a>) -> Option<Numbers<'a>>
    ensures { option_map spelled_of result ≡ coordinates instance.now }
{
    let value = instance.attribute(0)?;
    let items = value.items()?;
    three_numbers(&items)
}

fn three_numbers<'a>(items: &Values<'a>) -> Option<Numbers<'a>>
    ensures { option_map spelled_of result ≡ three_numbers items.now }
{
    let found = items.three()?;
    Some(Numbers {
        x: found.x.number()?,
        y: found.y.number()?,
        z: found.z.number()?,
    })
}

/// The direction of that number.
pub fn direction_of(exchange: &Exchange, id: u64) -> Option<Direction>
    ensures some { IfSome result (IsDirection exchange.now id) }
    ensures none { IfNone result ((d : Direction) → IsDirection exchange.now id d → ⊥) }
{
    let numbers = numbers_of(exchange, id)?;
    Some(Direction {
        x: Decimal::read(numbers.x)?,
        y: Decimal::read(numbers.y)?,
        z: Decimal::read(numbers.z)?,
    })
}
