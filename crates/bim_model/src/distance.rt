//! Distances of clash rules.
ghost use Rattle.std.specs.Prelude.{◌≡◌};
ghost use Rattle.bim_model.specs.Distances.{IsDistance, in_grid_numbers};

use crate::geometry::PER_MM;
use std::marker::Model;

/// A distance of clash rules in whole millimetres, at most 1,000. Contracts see their number. Lengths of models are in grid numbers:
/// `in_grid_numbers` is where a distance becomes such a length.
#[derive(Clone, Copy, Debug, PartialEq, Eq)]
pub struct Distance {
    millimetres: u32,
}

impl Model for Distance {
    ghost use Rattle.std.specs.Prelude.{ℕ};
    ghost use Rattle.bim_model.specs.Distances.{IsDistance};

    ghost Value = { ℕ };

    ghost view = { λ d. d.millimetres };

    ghost invariant = { λ d. IsDistance d.millimetres };

    ghost inverse = { λ n. record { millimetres = n } };
}

impl Distance {
    /// So many millimetres, at most 1,000.
    pub fn new(millimetres: u32) -> Distance
        requires { IsDistance millimetres }
        ensures { result ≡ millimetres }
    {
        Distance { millimetres }
    }

    /// Its millimetres.
    pub fn millimetres(self) -> u32
        ensures value { result ≡ self }
        ensures bound { IsDistance result }
    {
        self.millimetres
    }

    /// Its grid numbers.
    pub fn in_grid_numbers(self) -> u32
        ensures value { result ≡ in_grid_numbers self }
        ensures bound { IsDistance self }
    {
        self.millimetres * PER_MM as u32
    }
}
