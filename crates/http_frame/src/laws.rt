//! What follows of the definitions alone.
ghost use Rattle.std.specs.Prelude.{◌≡◌, ℕ, List, [], ◌++◌, Bool, Some};
ghost use Rattle.httparse.specs.Grammar.{RequestHead, ReadsRequest, MayBecomeRequest};
ghost use Rattle.http_frame.specs.declared.types.HttpRequest.{HttpRequest};
ghost use Rattle.http_frame.specs.declared.types.FrameFault.{FrameFault};
ghost use Rattle.http_frame.specs.Heads.{first_line};
ghost use Rattle.http_frame.specs.Events.{Event, Ending, bad, Begins, Fails, IsRest, IsTold, Spells};
ghost use Rattle.http_frame.specs.FramerSteps.{Act, Runs, given, told_by};

/// Bytes spell one list of events and end in one way.
pub fn bytes_have_one_reading()
    ensures { (bytes : List ℕ) (told : Bool) (es fs : List Event) (e d : Ending)
        → Spells bytes told es e → Spells bytes told fs d → (es ≡ fs) × (e ≡ d) }
{}

/// What stands at the front stays, whatever follows.
pub fn readings_stay()
    ensures request { (bytes more : List ℕ) (r : HttpRequest) (x : List ℕ)
        → Begins bytes r x → Begins (bytes ++ more) r (x ++ more) }
    ensures fault { (bytes more : List ℕ) (f : FrameFault) → Fails bytes f → Fails (bytes ++ more) f }
    ensures front { (bytes more : List ℕ) (told : Bool) (es fs : List Event) (e d : Ending)
        → Spells bytes told es e → Spells (bytes ++ more) told fs d → (gs : List Event) × (fs ≡ es ++ gs) }
    ensures ended { (bytes more : List ℕ) (told : Bool) (es : List Event) (f : FrameFault)
        → Spells bytes told es (bad f) → Spells (bytes ++ more) told es (bad f) }
{}

/// The second promise on which the first fault stands.
pub fn a_whole_line_may_become_a_head()
    ensures { (bytes l : List ℕ) → first_line bytes ≡ Some l → MayBecomeRequest bytes
        → (more : List ℕ) × (h : RequestHead) × ReadsRequest (bytes ++ more) h [] }
{}

/// What a framer answers over any pieces are the first events of all bytes; where it is `More`, none is left.
pub fn answers_are_the_events()
    ensures first { (old new : List ℕ) (told mark : Bool) (acts : List Act) (es : List Event) (e : Ending)
        → Runs old told acts new mark
        → Spells (old ++ given acts) told es e
        → (gs : List Event) × (es ≡ told_by acts ++ gs) × Spells new mark gs e }
    ensures more { (bytes : List ℕ) (told : Bool) (es : List Event) (e : Ending)
        → IsTold told bytes → IsRest bytes → Spells bytes told es e → es ≡ [] }
{}
