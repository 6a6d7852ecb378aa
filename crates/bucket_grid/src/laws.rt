//! What follows of the definitions alone.
ghost use Rattle.std.specs.Prelude.{◌≡◌, ℕ};
ghost use Rattle.bim_model.specs.Snapshots.{Version};
ghost use Rattle.bim_model.specs.declared.geometry.Extent.{Extent};
ghost use Rattle.bucket_grid.specs.Cells.{IsOwner};
ghost use Rattle.bucket_grid.specs.Grids.{HasMemberships};
ghost use Rattle.bucket_grid.specs.GridLaws.{CellsAreCounted, CellsHoldPoints, CloseBoxesHaveAnOwner, NearElementsHaveAnOwner};
ghost use Rattle.bucket_grid.specs.declared.cell.Cell.{Cell};

/// A version has one number of memberships.
pub fn memberships_are_one()
    ensures { (version : Version) (m n : ℕ) → HasMemberships version m → HasMemberships version n → m ≡ n }
{}

/// Two boxes have one owner at most.
pub fn owners_are_one()
    ensures { (a b : Extent) (c d : Cell) → IsOwner c a b → IsOwner d a b → c ≡ d }
{}

/// An element is a member of a cell exactly where a point of its box, grown by a metre on each side, lies in the cell.
pub fn cells_hold_points()
    ensures { CellsHoldPoints }
{}

/// The cells of which an element is a member can be listed, each once, and are as many as its box counts for among the
/// memberships.
pub fn cells_are_counted()
    ensures { CellsAreCounted }
{}

/// Two boxes at most a metre apart on each axis share a cell, and one cell owns them.
pub fn close_boxes_have_an_owner()
    ensures { CloseBoxesHaveAnOwner }
{}

/// Two elements that come within their rule's distance of each other share a cell, and one cell owns them.
pub fn near_elements_have_an_owner()
    ensures { NearElementsHaveAnOwner }
{}
