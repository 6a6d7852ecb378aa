//! A generated file, piece by piece.
ghost use Rattle.std.specs.Prelude.{◌≡◌, ◌≤◌, ◌<◌, ◌+◌, ◌*◌, ◌++◌, [], ℕ, length, string_bytes, IfOk, IfSome, MatchOption, OnErr};
ghost use Rattle.model_generator.specs.RandomNumbers.{state_at};
ghost use Rattle.model_generator.specs.Cuboids.{cuboid_of};
ghost use Rattle.model_generator.specs.InstanceLines.{element_lines};
ghost use Rattle.model_generator.specs.GeneratedFiles.{generated};

use crate::cuboid::draw_cuboid;
use crate::lines::{element_lines, end, head};
use std::alloc::{AllocError, Global};
use std::marker::Model;

/// The most elements of a generated file.
pub const MOST_GENERATED: u32 = 10_000;

/// What comes next.
#[derive(Clone, Copy, Debug, PartialEq, Eq)]
enum Stage {
    Head,
    Elements,
    Done,
}

/// The pieces of a generated file that are still to come. Contracts see it as the bytes that are left. It
/// holds one number and two counts, however large the file is.
#[derive(Drop)]
pub struct Pieces {
    number: u64,
    state: u64,
    place: u32,
    left: u32,
    stage: Stage,
}

impl Model for Pieces {
    ghost use Rattle.std.specs.Prelude.{◌≡◌, ◌≤◌, ◌+◌, ◌*◌, List, ℕ};
    ghost use Rattle.model_generator.specs.RandomNumbers.{state_at};
    ghost use Rattle.model_generator.specs.RemainingBytes.{left_of};
    ghost use Rattle.model_generator.specs.declared.pieces.TheConstants.{MOST_GENERATED};

    ghost Value = { List ℕ };

    ghost view = { λ p. left_of p.number p.stage p.place p.left };

    ghost invariant = { λ p.
        (p.state ≡ state_at p.number (6 * p.place)) × (p.place + p.left ≤ MOST_GENERATED) };
}

// The lines of the element of that place, from the state before it, and the state after it.
fn next_element(alloc: Global, state: u64, place: u32) -> Result<(String, u64), AllocError>
    requires { place < MOST_GENERATED }
    ensures lines { (number : ℕ) → state ≡ state_at number (6 * place)
        → IfOk result (λ made. string_bytes made.0 ≡ element_lines place (cuboid_of number place)) }
    ensures state { (number : ℕ) → state ≡ state_at number (6 * place)
        → IfOk result (λ made. made.1 ≡ state_at number (6 * place + 6)) }
{
    let mut behind = state;
    let cuboid = draw_cuboid(&mut behind);
    let text = element_lines(alloc, place, cuboid)?;
    Ok((text, behind))
}

impl Pieces {
    /// All pieces of the file of so many elements, which are drawn from a number.
    pub fn of(count: u32, number: u64) -> Pieces
        requires { count ≤ MOST_GENERATED }
        ensures { result ≡ generated number count }
    {
        Pieces {
            number,
            state: number,
            place: 0,
            left: count,
            stage: Stage::Head,
        }
    }

    /// The next piece, none where nothing is left. An `Err` leaves the pieces as they were.
    #[tactic(auto, using(crate::proofs::Rest::rest_after, crate::proofs::Rest::lines_some))]
    pub fn next(&mut self, alloc: Global) -> Result<Option<String>, AllocError>
        ensures piece { IfOk result (λ piece.
            MatchOption piece (self.old ≡ []) (λ text. self.old ≡ string_bytes text ++ self.new)) }
        ensures some { IfOk result (λ piece. IfSome piece (λ text. 0 < length (string_bytes text))) }
        ensures kept { OnErr result (self.new ≡ self.old) }
    {
        match self.stage {
            Stage::Head => {
                let text = String::from_str(alloc, head())?;
                self.stage = Stage::Elements;
                Ok(Some(text))
            }
            Stage::Elements => {
                if self.left == 0 {
                    let text = String::from_str(alloc, end())?;
                    self.stage = Stage::Done;
                    return Ok(Some(text));
                }
                let (text, state) = next_element(alloc, self.state, self.place)?;
                self.state = state;
                self.place += 1;
                self.left -= 1;
                Ok(Some(text))
            }
            Stage::Done => Ok(None),
        }
    }
}
