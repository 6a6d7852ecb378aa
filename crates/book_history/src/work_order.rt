//! Work as the book gives it out.
ghost use Rattle.std.specs.Prelude.{◌≡◌};
ghost use Rattle.bucket_grid.specs.Cells.{IsBucket};
ghost use Rattle.book_history.specs.Orders.{order_of};

use bucket_check::BucketWork;
use std::marker::Model;

/// A bucket to be checked, as the book gives it. Contracts see which one it is, and what the version holds;
/// of its grid nothing else, since that follows of the version.
#[derive(Drop)]
pub struct WorkOrder {
    work: BucketWork,
}

impl Model for WorkOrder {
    ghost use Rattle.bucket_grid.specs.Cells.{IsBucket};
    ghost use Rattle.book_history.specs.Orders.{OrderValue, order_of};

    ghost Value = { OrderValue };

    ghost view = { λ o. order_of o.work };

    ghost invariant = { λ o. IsBucket o.work.grid.boxes o.work.cell };
}

impl WorkOrder {
    /// The order for this work, of a bucket of its grid.
    pub fn of(work: BucketWork) -> WorkOrder
        requires { IsBucket work.grid.boxes work.cell }
        ensures { result ≡ order_of work }
    {
        WorkOrder { work }
    }

    /// The work to be done: a bucket of the version's grid.
    pub fn into_work(self) -> BucketWork
        ensures order { order_of result ≡ self }
        ensures bucket { IsBucket result.grid.boxes result.cell }
    {
        self.work
    }
}
