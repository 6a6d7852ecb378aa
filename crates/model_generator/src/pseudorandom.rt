//! Numbers that look as if they were thrown, and are the same each time.
ghost use Rattle.std.specs.Prelude.{◌≡◌, ◌<◌, ◌/◌, ◌^◌};
ghost use Rattle.model_generator.specs.RandomNumbers.{after};

const FACTOR: u128 = 6364136223846793005;

const STEP: u128 = 1442695040888963407;

// The state that follows.
#[tactic(auto, unfolding(crate::specs::RandomNumbers::after))]
fn after(state: u64) -> u64
    ensures { result ≡ after state }
{
    ((state as u128 * FACTOR + STEP) % (1 << 64)) as u64
}

/// Draws the next number, which has 31 bits.
pub fn draw(state: &mut u64) -> u64
    ensures state { state.new ≡ after state.old }
    ensures drawn { result ≡ after state.old / 2 ^ 33 }
    ensures small { result < 2 ^ 31 }
{
    *state = after(*state);
    *state >> 33
}
