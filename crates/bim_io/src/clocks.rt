//! Clocks in memory.
ghost use Rattle.std.specs.Prelude.{◌≡◌, ◌++◌, ◌∷◌, [], None, Some, get_or};
ghost use Rattle.bim_model.specs.Moments.{IsMoment};
ghost use Rattle.bim_io.specs.Causes.{Grows};

use crate::traits::Clock;
use bim_model::{Items, Moment};
use std::marker::Model;

/// A clock that always gives one moment. It does not tell how often.
#[derive(Drop)]
pub struct MemClock {
    moment: u64,
}

impl Model for MemClock {
    ghost use Rattle.std.specs.Prelude.{ℕ};
    ghost use Rattle.bim_model.specs.Moments.{IsMoment};

    ghost Value = { ℕ };

    ghost view = { λ c. c.moment };

    ghost invariant = { λ c. IsMoment c.moment };
}

impl MemClock {
    /// A clock of this moment, in seconds since 1970, at most 253,402,207,200.
    pub fn new(moment: u64) -> MemClock
        requires { IsMoment moment }
        ensures { result ≡ moment }
    {
        MemClock { moment }
    }
}

impl Clock for MemClock {
    ghost seen = { λ c. record { one = Some c; gave = None } };

    fn now(&mut self) -> u64 {
        self.moment
    }
}

/// A clock that gives the moments of a list, in order, and tells those that it gave. Once it has given them all, it
/// gives 0 and no longer tells.
#[derive(Drop)]
pub struct ListClock {
    moments: Items<Moment>,
    at: usize,
    tells: bool,
}

impl Model for ListClock {
    ghost use Rattle.std.specs.Prelude.{◌≤◌, Some, None, if◌then◌else◌, length, take, drop};
    ghost use Rattle.bim_io.specs.MemoryStreams.{ListClockState};

    ghost Value = { ListClockState };

    ghost view = { λ c. record {
      left = drop c.at c.moments;
      gave = (if c.tells then Some (take c.at c.moments) else None);
    } };

    ghost invariant = { λ c. c.at ≤ length c.moments };
}

impl ListClock {
    /// A clock of these moments.
    pub fn new(moments: Items<Moment>) -> ListClock
        ensures { result ≡ record { left = moments; gave = Some [] } }
    {
        ListClock {
            moments,
            at: 0,
            tells: true,
        }
    }
}

impl Clock for ListClock {
    ghost seen = { λ c. record { one = None; gave = c.gave } };

    fn now(&mut self) -> u64
        ensures bound { IsMoment result }
        ensures gave { Grows self.old.gave self.new.gave (result ∷ []) }
        ensures next { result ≡ get_or self.old.left 0 0 }
    {
        match self.moments.as_slice().get(self.at) {
            Some(moment) => {
                self.at += 1;
                moment.seconds()
            }
            None => {
                self.tells = false;
                0
            }
        }
    }
}
