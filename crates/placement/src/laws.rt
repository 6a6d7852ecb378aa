//! What callers may rely on beyond one call.
ghost use Rattle.std.specs.Prelude.{◌≡◌, ℕ, List};
ghost use Rattle.bim_model.specs.declared.geometry.Point.{Point};
ghost use Rattle.bim_model.specs.declared.upload.Mode.{Mode};
ghost use Rattle.p21_values.specs.declared.value.Instance.{Instance};
ghost use Rattle.ifc_units.specs.declared.scale.Scale.{Scale};
ghost use Rattle.placement.specs.declared.axes.Axes.{Axes};
ghost use Rattle.placement.specs.declared.frame.Frame.{Frame};
ghost use Rattle.placement.specs.Frames.{carried};
ghost use Rattle.placement.specs.Directions.{HasAxes, Oblique};
ghost use Rattle.placement.specs.Placed.{IsLocation, AxisFrame, OwnFrame, FrameOf};
ghost use Rattle.placement.specs.Operators.{HasOperatorAxes, ObliqueOperator, IsOrigin, OperatorFrame};

/// An axis placement has one location and one set of axes at most, and so one frame, and a placement one frame of its own. The frames
/// of a placement in the building carry each point to one place. What has axes along the grid's isn't oblique.
pub fn one_frame()
    ensures location { (world : List Instance) (scale : Scale) (mode : Mode) (id : ℕ) (p q : Point)
        → IsLocation world scale mode id p → IsLocation world scale mode id q → p ≡ q }
    ensures axes { (world : List Instance) (id : ℕ) (a b : Axes) → HasAxes world id a → HasAxes world id b
        → a ≡ b }
    ensures square { (world : List Instance) (id : ℕ) (a : Axes) → HasAxes world id a → Oblique world id → ⊥ }
    ensures frame { (world : List Instance) (scale : Scale) (mode : Mode) (id : ℕ) (f g : Frame)
        → AxisFrame world scale mode id f → AxisFrame world scale mode id g → f ≡ g }
    ensures own { (world : List Instance) (scale : Scale) (mode : Mode) (id : ℕ) (f g : Frame)
        → OwnFrame world scale mode id f → OwnFrame world scale mode id g → f ≡ g }
    ensures carried { (world : List Instance) (scale : Scale) (mode : Mode) (id : ℕ) (f g : Frame)
        → FrameOf world scale mode id f → FrameOf world scale mode id g → (p : Point)
        → carried f p ≡ carried g p }
{}

/// An operator has one origin and one set of axes at most, and so one frame. What has axes along the grid's isn't oblique.
pub fn one_operator_frame()
    ensures origin { (world : List Instance) (scale : Scale) (mode : Mode) (id : ℕ) (p q : Point)
        → IsOrigin world scale mode id p → IsOrigin world scale mode id q → p ≡ q }
    ensures axes { (world : List Instance) (id : ℕ) (a b : Axes) → HasOperatorAxes world id a
        → HasOperatorAxes world id b → a ≡ b }
    ensures square { (world : List Instance) (id : ℕ) (a : Axes) → HasOperatorAxes world id a
        → ObliqueOperator world id → ⊥ }
    ensures frame { (world : List Instance) (scale : Scale) (mode : Mode) (id : ℕ) (f g : Frame)
        → OperatorFrame world scale mode id f → OperatorFrame world scale mode id g → f ≡ g }
{}
