//! What follows of the definitions alone.
ghost use Rattle.clash_publish.specs.ClashListLaws.{ClashesAreListed, ClashesAreListedByKeys};

/// The list of all clashes of a version rises strictly and has exactly its clashes, and there is one such list.
pub fn clashes_are_listed()
    ensures { ClashesAreListed }
{}

/// By keys it rises strictly by the first and then by the second, and has exactly the clashes of the version.
pub fn clashes_are_listed_by_keys()
    ensures { ClashesAreListedByKeys }
{}
