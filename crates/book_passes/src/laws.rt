//! What follows of the promises of a call of the book.
ghost use Rattle.book_passes.specs.LessonLaws.{CallsTeach, IdleTurnsTeach, TurnsTeach, LessonsAddUp};

/// A call that is answered takes a turn, at which it adds what its request adds there.
pub fn calls_teach()
    ensures { CallsTeach }
{}

/// A call that runs out of memory takes a turn and adds nothing.
pub fn idle_turns_teach()
    ensures { IdleTurnsTeach }
{}

/// A pass that takes a turn learns the entries of others below it, and then what it adds itself.
pub fn turns_teach()
    ensures { TurnsTeach }
{}

/// What a pass learns at several times adds up.
pub fn lessons_add_up()
    ensures { LessonsAddUp }
{}
