//! What the program asks of the outside. Each object counts its faults.
ghost use Rattle.std.specs.Prelude.{◌≡◌, ◌∷◌, [], length, IfOk};
ghost use Rattle.std.specs.Io.{ReadsAtMost, WritesAtMost};
ghost use Rattle.bim_model.specs.Moments.{IsMoment};
ghost use Rattle.bim_io.specs.Causes.{HasCause, ReadGives, ReadTakes, ends_read, WithinMost, WritesSome, WriteTells, GivesMoment, Grows};
ghost use Rattle.bim_io.specs.StreamViews.{SourceSeen, SinkSeen, ClockSeen, EndsEmpty};

/// A call on the outside failed; the object's count of faults rose.
#[derive(Clone, Copy, Debug, PartialEq, Eq)]
pub struct Failed;

/// Where bytes come from.
pub trait Source {
    /// The bytes that are left and those that it has given, where it tells them; the most that one read gives, where it
    /// has such a bound; whether it has answered its end; how often it has failed.
    ghost seen: { Self → SourceSeen };

    /// Reads the next bytes into the room and says how many. 0 for a room that is not empty is the end.
    fn read(&mut self, room: &mut [u8]) -> Result<usize, Failed>
        ensures bound { ReadsAtMost result room.new }
        ensures left { ReadTakes (seen self.old).left (seen self.new).left result room.new }
        ensures given { ReadGives (seen self.old).given (seen self.new).given result room.new }
        ensures within { IfOk result (WithinMost (seen self.old).most) }
        ensures same { (seen self.new).most ≡ (seen self.old).most }
        ensures end { (seen self.new).ended ≡ ends_read (seen self.old).ended (length room.new) result }
        ensures cause { HasCause (seen self.old).faults (seen self.new).faults result };

    /// One that says what is left, and has answered its end, has nothing left.
    ghost at_end: { (s : Self) → EndsEmpty (seen s) };
}

/// Where bytes go to.
pub trait Sink {
    /// The bytes that it holds, where it tells them; how often it has failed.
    ghost seen: { Self → SinkSeen };

    /// Writes a front of the piece and says how long it is: at least one byte of a piece that is not empty.
    fn write(&mut self, piece: &[u8]) -> Result<usize, Failed>
        ensures bound { WritesAtMost result piece.now }
        ensures some { WritesSome result piece.now }
        ensures held { WriteTells (seen self.old).held (seen self.new).held result piece.now }
        ensures cause { HasCause (seen self.old).faults (seen self.new).faults result };
}

/// What time it is.
pub trait Clock {
    /// The one moment that it gives, where it has one; the moments that it gave, in order, where it tells them.
    ghost seen: { Self → ClockSeen };

    /// The seconds since 1970 in UTC, at most 253,402,207,200.
    fn now(&mut self) -> u64
        ensures bound { IsMoment result }
        ensures told { GivesMoment (seen self.old).one result }
        ensures same { (seen self.new).one ≡ (seen self.old).one }
        ensures gave { Grows (seen self.old).gave (seen self.new).gave (result ∷ []) };
}
