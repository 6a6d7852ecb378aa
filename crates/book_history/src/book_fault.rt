//! Why the book refuses.

/// Why a request is refused. Numbers are the book's at that turn.
#[derive(Clone, Copy, Debug, PartialEq, Eq)]
pub enum BookFault {
    /// K1: no project has that identifier.
    NoProject,
    /// K2: the newest version has no model of that name.
    NoModel,
    /// K3: the project has no version of that number yet.
    NoVersion {
        newest: u64,
    },
    /// K4: that version is one of the project's, but not of its last 16.
    VersionDropped {
        version: u64,
        newest: u64,
    },
    /// K5: so many buckets of that version are still to be checked, one at least.
    Pending {
        version: u64,
        left: u64,
    },
    /// K6: all accepted changes would hold so much with this one, more than the limit.
    StoreFull {
        what: StoreWhat,
        count: u64,
        limit: u64,
    },
    /// K7: the version that would be made has so many elements, more than the limit.
    ElementsFull {
        count: u64,
        limit: u64,
    },
    /// K8: it has so many pairs of a cell and an element in it, more than the limit.
    TooSpread {
        count: u64,
        limit: u64,
    },
    /// K9: the journal would have so many entries once all buckets are checked, more than the limit.
    JournalFull {
        count: u64,
        limit: u64,
    },
    /// K10: that bucket was checked before.
    AlreadyDone,
    /// K11: no bucket of a live version is to be checked.
    NoWork,
    /// K12: the version has so many clashes, and none at that place.
    NoClash {
        place: u64,
        total: u64,
    },
    /// K13: the turn that the request gives isn't below its own turn: it hasn't been served before.
    TurnAhead {
        given: u64,
        turn: u64,
    },
    /// B1: the project has no topic of that identifier.
    NoTopic,
    /// B2: the topic has no comment of that identifier.
    NoComment,
    /// B5: all projects would have so many topics with the new one, more than the limit.
    TopicsFull {
        count: u64,
        limit: u64,
    },
    /// B6: .. so many comments.
    CommentsFull {
        count: u64,
        limit: u64,
    },
    /// B7: the topic has no viewpoint of that identifier.
    NoViewpoint,
    /// B9: all projects would have so many viewpoints with the new one, more than the limit.
    ViewpointsFull {
        count: u64,
        limit: u64,
    },
}

/// What all accepted changes hold together.
#[derive(Clone, Copy, Debug, PartialEq, Eq)]
pub enum StoreWhat {
    /// The triangles of all uploaded models.
    Triangles,
    /// The bytes of texts.
    Text,
}
