//! What follows of the definitions alone.
ghost use Rattle.std.specs.Prelude.{ℕ, List, ◌++◌, Bool};
ghost use Rattle.http_frame.specs.Events.{Event, Ending, Spells};
ghost use Rattle.bim_session.specs.Session.{Reads};
ghost use Rattle.bim_session.specs.Replay.{NoneIsPending};

/// The events that a session reads, and those that the rest spells, are what the whole bytes spell, and they
/// end as the rest does.
pub fn answers_are_to_the_events()
    ensures { (bytes rest : List ℕ) (told mark : Bool) (events more : List Event) (ending : Ending)
        → Reads bytes told events rest mark → Spells rest mark more ending
        → Spells bytes told (events ++ more) ending }
{}

/// Where all buckets are worked after each answer, as without `--buckets`, no step of a replayed session is answered
/// that buckets are still to be checked.
pub fn no_reply_is_pending()
    ensures { NoneIsPending }
{}
