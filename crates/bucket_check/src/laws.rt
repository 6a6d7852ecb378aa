//! What follows of the definitions alone.
ghost use Rattle.bucket_check.specs.OwnershipLaws.{ClashesAreOwned, ClashesAreOwnedOnce, PartsAreClashes, FoundIsOwned};

/// Each clash is owned by one bucket, the least cell of which both elements are members.
pub fn clashes_are_owned()
    ensures { ClashesAreOwned }
{}

/// No clash is owned by two buckets.
pub fn clashes_are_owned_once()
    ensures { ClashesAreOwnedOnce }
{}

/// What the buckets own is all clashes of the version.
pub fn parts_are_clashes()
    ensures { PartsAreClashes }
{}

/// What is found among the members of a cell is what the cell owns.
pub fn found_is_owned()
    ensures { FoundIsOwned }
{}
