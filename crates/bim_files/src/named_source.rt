//! What the program asks of files.
ghost use Rattle.std.specs.Prelude.{◌≡◌, ◌≤◌, List, ℕ, Option, length, IfOk, OnErr};
ghost use Rattle.std.specs.Io.{ReadsAtMost};
ghost use Rattle.bim_io.specs.Causes.{HasCause, ReadGives, ReadTakes, ends_read, WithinMost};
ghost use Rattle.bim_files.specs.Files.{FilesSeen, IsFresh, IsLent, Lends, TakesBack, ClosesWith};

use bim_io::{Failed, Source};
use bim_model::Text;

/// A source that files have lent. No read changes the name that it was lent under.
pub trait NamedSource: Source {
    /// The name that it was lent under, where it tells it.
    ghost name: { Self → Option (List ℕ) };

    /// Reads as every source does, and stays the source of its name.
    fn read_named(&mut self, room: &mut [u8]) -> Result<usize, Failed>
        ensures bound { ReadsAtMost result room.new }
        ensures left { ReadTakes (Self.seen self.old).left (Self.seen self.new).left result room.new }
        ensures given { ReadGives (Self.seen self.old).given (Self.seen self.new).given result room.new }
        ensures within { IfOk result (WithinMost (Self.seen self.old).most) }
        ensures same { (Self.seen self.new).most ≡ (Self.seen self.old).most }
        ensures end { (Self.seen self.new).ended
            ≡ ends_read (Self.seen self.old).ended (length room.new) result }
        ensures cause { HasCause (Self.seen self.old).faults (Self.seen self.new).faults result }
        ensures name { name self.new ≡ name self.old };
}

/// Files that lend the source of a name and take it back.
pub trait Files {
    /// What they lend.
    type S: NamedSource;

    /// The contents by name and how often each name is lent, where they tell them; how often they have
    /// failed.
    ghost seen: { Self → FilesSeen };

    /// Lends a source of the file of that name. It has given nothing yet. Where the name was not lent, what
    /// is left of it is what the file holds.
    fn open_file(&mut self, name: &Text) -> Result<Self::S, Failed>
        ensures fresh { IfOk result (λ source. IsFresh (Self.S.Source.seen source)) }
        ensures lends { IfOk result (λ source. Lends (seen self.old).told (seen self.new).told name.now
            (Self.S.Source.seen source) (Self.S.NamedSource.name source)) }
        ensures kept { OnErr result ((seen self.new).told ≡ (seen self.old).told) }
        ensures cause { HasCause (seen self.old).faults (seen self.new).faults result };

    /// Takes back a source that these files have lent. Where it has failed, the files have failed too.
    fn close_file(&mut self, source: Self::S)
        requires { IsLent (seen self.old).told (Self.S.NamedSource.name source) }
        ensures back { TakesBack (seen self.old).told (seen self.new).told (Self.S.NamedSource.name source) }
        ensures faults { ClosesWith (Self.S.Source.seen source).faults (seen self.old).faults
            (seen self.new).faults };
}
