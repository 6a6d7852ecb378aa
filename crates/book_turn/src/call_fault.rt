//! Why a call got no reply.
ghost use Rattle.std.specs.Prelude.{◌≡◌};

use crate::limits::MOST_TURNS;
use std::error::Error;
use std::fmt;
use std::marker::Model;

/// A pass that has made all its turns. Contracts see it as the number of the pass.
#[derive(Debug, Drop)]
pub struct SpentPass {
    pass: u32,
    turns: u64,
}

impl Model for SpentPass {
    ghost use Rattle.std.specs.Prelude.{ℕ, ◌≡◌};
    ghost use Rattle.book_turn.specs.declared.limits.TheConstants.{MOST_TURNS};

    ghost Value = { ℕ };

    ghost view = { λ s. s.pass };

    ghost invariant = { λ s. s.turns ≡ MOST_TURNS };
}

impl SpentPass {
    /// The fault of a pass that has made so many turns, which is all that a pass may make.
    pub fn new(pass: u32, turns: u64) -> SpentPass
        requires { turns ≡ MOST_TURNS }
        ensures { result ≡ pass }
    {
        SpentPass { pass, turns }
    }

    /// The number of the pass.
    pub fn pass(&self) -> u32
        ensures { result ≡ self.now }
    {
        self.pass
    }

    /// How many turns it has made: all that a pass may make.
    pub fn turns(&self) -> u64
        ensures { result ≡ MOST_TURNS }
    {
        self.turns
    }
}

/// Why a call got no reply.
#[derive(Debug, Drop)]
pub enum CallFault {
    /// Memory ran out in the object. The turn was taken, and no entry was added.
    Memory,
    /// The pass has made `MOST_TURNS` turns, those of passes that were joined into it not counted. No turn was taken.
    PassSpent(SpentPass),
}

impl fmt::Display for CallFault {
    fn fmt<W: fmt::Write>(&self, f: &mut fmt::Formatter<W>) -> fmt::Result {
        match self {
            CallFault::Memory => f.write_str("memory ran out"),
            CallFault::PassSpent(spent) => write!(
                f,
                "pass {} has made all its {} turns",
                spent.pass(),
                spent.turns()
            ),
        }
    }
}

impl Error for CallFault {}
