//! The elements of a generated model: cuboids along the axes.
ghost use Rattle.std.specs.Prelude.{◌≡◌, ◌*◌, ◌+◌, ◌<◌, ◌/◌, ◌%◌, ◌^◌, ℕ};
ghost use Rattle.model_generator.specs.RandomNumbers.{after, state_at};
ghost use Rattle.model_generator.specs.Cuboids.{cuboid_of, IsSmall};

use crate::pseudorandom::draw;

/// A cuboid by its low corner and its sizes, in millimetres.
#[derive(Clone, Copy, Debug, PartialEq, Eq)]
pub struct Cuboid {
    pub x: u32,
    pub y: u32,
    pub z: u32,
    pub width: u32,
    pub depth: u32,
    pub height: u32,
}

// A number from `least` on, of `count` many.
fn within(state: &mut u64, least: u32, count: u32) -> u32
    requires some { 0 < count }
    requires few { least + count < 100000 }
    ensures state { state.new ≡ after state.old }
    ensures value { result ≡ least + (after state.old / 2 ^ 33) % count }
    ensures small { result < least + count }
{
    least + (draw(state) % count as u64) as u32
}

/// The cuboid of that place, from the state before it.
pub fn draw_cuboid(state: &mut u64) -> Cuboid
    ensures state { (number place : ℕ)
        → state.old ≡ state_at number (6 * place) → state.new ≡ state_at number (6 * place + 6) }
    ensures cuboid { (number place : ℕ)
        → state.old ≡ state_at number (6 * place) → result ≡ cuboid_of number place }
    ensures small { IsSmall result }
{
    let x = within(state, 0, 40_000);
    let y = within(state, 0, 40_000);
    let z = within(state, 0, 12_000);
    let width = within(state, 100, 900);
    let depth = within(state, 100, 900);
    let height = within(state, 100, 900);
    Cuboid {
        x,
        y,
        z,
        width,
        depth,
        height,
    }
}
