//! Workers: they take buckets out of the book at one turn, check them outside every turn, and bring what they found at
//! another. Several work over one book, each in a thread of its own, and their passes are joined into one.
#![tactic(auto)]

mod work;
mod workers;

pub use work::{Worked, work_loop, work_one};
pub use workers::{Lack, Worker, join_workers, make_workers, run_workers, work_out};
