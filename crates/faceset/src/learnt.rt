//! What was learnt of the faces and of the lists of points of a file.
use crate::point_counts::PointCounts;
use crate::reaches::FaceReaches;
use std::alloc::Global;

/// What was learnt of the faces and of the lists of points of a file, so that the calls for many sets look at each once.
#[derive(Drop)]
pub struct Learnt {
    pub(crate) faces: FaceReaches,
    pub(crate) lists: PointCounts,
}

impl Learnt {
    ghost use Rattle.std.specs.Prelude.{List};
    ghost use Rattle.p21_values.specs.declared.value.Instance.{Instance};
    ghost use Rattle.faceset.specs.Learnt.{IsLearnt};

    /// Nothing as yet. Takes no memory.
    pub fn new(alloc: Global) -> Learnt
        ensures { (world : List Instance) → IsLearnt world result }
    {
        Learnt {
            faces: FaceReaches::new(alloc),
            lists: PointCounts::new(alloc),
        }
    }
}
