//! What follows of the definitions alone.
ghost use Rattle.std.specs.Prelude.{◌≡◌, ◌≢◌, ◌↔◌, ◌<◌, ℕ, List, length, slice_index_or, AllPairs, Contains};
ghost use Rattle.bim_model.specs.Boxes.{IsExtentOf};
ghost use Rattle.bim_model.specs.Models.{AreBoxes};
ghost use Rattle.bim_model.specs.Snapshots.{IsSnapshot};
ghost use Rattle.bim_model.specs.Keys.{Subject, subjects_of, IsBelow};
ghost use Rattle.bim_model.specs.declared.geometry.Triangle.{Triangle};
ghost use Rattle.bim_model.specs.declared.geometry.Extent.{Extent};
ghost use Rattle.bim_model.specs.declared.element.Element.{Element};
ghost use Rattle.bim_model.specs.declared.named_model.NamedModel.{NamedModel};

/// Triangles have one smallest box at most, and so each element of a list.
pub fn smallest_boxes_are_unique()
    ensures one { (triangles : List Triangle) (a b : Extent) → IsExtentOf triangles a
        → IsExtentOf triangles b → a ≡ b }
    ensures each { (elements : List Element) (a b : List Extent) → AreBoxes elements a → AreBoxes elements b
        → a ≡ b }
{}

/// The elements of a version rise strictly by their keys, so that an element's number stands for its key.
pub fn keys_rise()
    ensures { (models : List NamedModel) → IsSnapshot models → AllPairs IsBelow (subjects_of models) }
{}

/// Two models of a version have two names, and so two elements of a version are of one model exactly where its name is the same.
pub fn names_tell_models()
    ensures names { (models : List NamedModel) → IsSnapshot models
        → AllPairs (λ (m n : NamedModel). m.name ≢ n.name) models }
    ensures places { (models : List NamedModel) → IsSnapshot models → (s t : Subject)
        → Contains (subjects_of models) s → Contains (subjects_of models) t
        → (s.model ≡ t.model) ↔ (s.name ≡ t.name) }
{}
