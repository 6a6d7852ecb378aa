//! What callers may rely on beyond one call.
ghost use Rattle.std.specs.Prelude.{◌≡◌, ℕ, List};
ghost use Rattle.bim_model.specs.declared.upload.UploadFault.{UploadFault};
ghost use Rattle.p21_values.specs.declared.value.Instance.{Instance};
ghost use Rattle.spatial_tree.specs.Trees.{StoreyOf, LeastTreeFault, IsTree};

/// An object stands in one storey at most. Instances have one fault of the tree at most, and none where their relations make one.
pub fn one_storey()
    ensures storey { (world : List Instance) (object s t : ℕ) → StoreyOf world object s
        → StoreyOf world object t → s ≡ t }
    ensures fault { (world : List Instance) (f g : UploadFault) → LeastTreeFault world f
        → LeastTreeFault world g → f ≡ g }
    ensures apart { (world : List Instance) (f : UploadFault) → IsTree world → LeastTreeFault world f → ⊥ }
{}
