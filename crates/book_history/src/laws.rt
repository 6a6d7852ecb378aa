//! Laws of the definitions.
ghost use Rattle.book_history.specs.HistoryLaws.{GridsAreOne, WorkStaysGiven, RequestsStayLegal};
ghost use Rattle.book_history.specs.AcceptedChanges.{MadeIsAccepted, MadeAreAccepted};

/// A version has one grid.
pub fn grids_are_one()
    ensures { GridsAreOne }
{}

/// What is given out to be checked may be brought back at any later time.
pub fn work_stays_given()
    ensures { WorkStaysGiven }
{}

/// A request that may be made may be made at any later time.
pub fn requests_stay_legal()
    ensures { RequestsStayLegal }
{}

/// An entry that a request made at a history is accepted there, by its numbers.
pub fn made_is_accepted()
    ensures { MadeIsAccepted }
{}

/// A history whose entries requests made is accepted again from its first entry on, entry by entry.
pub fn made_are_accepted()
    ensures { MadeAreAccepted }
{}
