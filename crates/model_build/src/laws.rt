//! What callers may rely on beyond one call.
ghost use Rattle.std.specs.Prelude.{◌≡◌, ℕ, List, Result, IsPermutation};
ghost use Rattle.bim_model.specs.declared.upload.Mode.{Mode};
ghost use Rattle.bim_model.specs.declared.upload.UploadFault.{UploadFault};
ghost use Rattle.bim_model.specs.declared.element.Element.{Element};
ghost use Rattle.p21_values.specs.declared.value.Instance.{Instance};
ghost use Rattle.bim_model.specs.Models.{IsModel};
ghost use Rattle.model_walk.specs.Walked.{IsWalked};
ghost use Rattle.model_build.specs.StageFaults.{IsClear};
ghost use Rattle.model_walk.specs.Checked.{Differ};
ghost use Rattle.model_build.specs.Order.{Rise};
ghost use Rattle.model_build.specs.Stages.{FileFault};
ghost use Rattle.model_build.specs.Profile.{IsModelOf, Profile};

/// The instances of a file make one model at most, and have one first fault at most.
pub fn instances_have_one_answer()
    ensures model { (world : List Instance) (mode : Mode) (a b : List Element) → IsModelOf world mode a
        → IsModelOf world mode b → a ≡ b }
    ensures fault { (world : List Instance) (mode : Mode) (f g : UploadFault) → FileFault world mode f
        → FileFault world mode g → f ≡ g }
{}

/// Bytes have one answer: they make one model or have one fault, never both. So `build` gives exactly the model that the profile defines,
/// or exactly the first fault.
pub fn profile_has_one_answer()
    ensures { (bytes : List ℕ) (mode : Mode) (a b : Result (List Element) UploadFault) → Profile bytes mode a
        → Profile bytes mode b → a ≡ b }
{}

/// A walk that gives elements says that no stage has a fault, and that these elements, in the order of their identifiers, are the file's model.
pub fn walks_tell_models()
    ensures clear { (world : List Instance) (mode : Mode) (elements : List Element)
        → IsWalked world mode elements → IsClear (FileFault world mode) }
    ensures model { (world : List Instance) (mode : Mode) (made elements : List Element)
        → IsWalked world mode made → IsPermutation made elements → (Differ made → Rise elements)
        → IsModelOf world mode elements }
    ensures sound { (world : List Instance) (mode : Mode) (made elements : List Element)
        → IsWalked world mode made → IsPermutation made elements → (Differ made → Rise elements)
        → IsModel elements }
{}
