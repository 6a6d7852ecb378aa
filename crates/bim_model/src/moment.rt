//! Moments.
ghost use Rattle.std.specs.Prelude.{◌≡◌};
ghost use Rattle.bim_model.specs.Moments.{IsMoment};

use std::marker::Model;

/// A moment: whole seconds since 1970 in UTC, at most 253,402,207,200, which is the last that `jiff` takes as an
/// instant.
#[derive(Clone, Copy, Debug, PartialEq, Eq)]
pub struct Moment {
    seconds: u64,
}

impl Model for Moment {
    ghost use Rattle.std.specs.Prelude.{ℕ};
    ghost use Rattle.bim_model.specs.Moments.{IsMoment};

    ghost Value = { ℕ };

    ghost view = { λ m. m.seconds };

    ghost invariant = { λ m. IsMoment m.seconds };

    ghost inverse = { λ n. record { seconds = n } };
}

impl Moment {
    /// The last moment there is, in seconds since 1970.
    pub const LAST: u64 = 253_402_207_200;

    /// The moment of so many seconds since 1970.
    pub fn new(seconds: u64) -> Moment
        requires { IsMoment seconds }
        ensures { result ≡ seconds }
    {
        Moment { seconds }
    }

    /// Its seconds since 1970.
    pub fn seconds(self) -> u64
        ensures value { result ≡ self }
        ensures bound { IsMoment result }
    {
        self.seconds
    }
}
