//! Laws of the definitions.
ghost use Rattle.feed_frames.specs.FrameStreams.{FramesAreApart, StreamsSplitOnce};

/// No frame begins another, and each entry has one.
pub fn frames_are_apart()
    ensures { FramesAreApart }
{}

/// A stream is the frames of one list of entries, and a rest that is no whole frame.
pub fn streams_split_once()
    ensures { StreamsSplitOnce }
{}
