//! What callers may rely on beyond one call.
ghost use Rattle.std.specs.Prelude.{◌≡◌, ◌<◌, ℕ, ℤ, List};
ghost use Rattle.bim_model.specs.declared.geometry.Point.{Point};
ghost use Rattle.bim_model.specs.declared.upload.Mode.{Mode};
ghost use Rattle.bim_model.specs.declared.upload.UploadFault.{UploadFault};
ghost use Rattle.bim_model.specs.Models.{IsInReach};
ghost use Rattle.bim_text.specs.ScaledNumbers.{Scaled};
ghost use Rattle.p21_values.specs.declared.value.Value21.{Value21};
ghost use Rattle.p21_values.specs.declared.value.Instance.{Instance};
ghost use Rattle.ifc_units.specs.declared.scale.Scale.{Scale};
ghost use Rattle.ifc_units.specs.declared.length_error.GridFault.{GridFault};
ghost use Rattle.ifc_units.specs.Grid.{IsGridNumber};
ghost use Rattle.ifc_units.specs.Lengths.{IsLength, LengthRefused, IsPoint, PointRefused, ArePoints, PointsRefused, InstanceRefused};
ghost use Rattle.ifc_units.specs.Units.{IsLengthUnit, LengthUnitFault};

/// A length has at most one grid number, while there are fewer than 500 to a millimetre. So `to_grid` gives a number exactly where it
/// is the length's and within 800,000 mm.
pub fn one_grid_number()
    ensures { (mode : Mode) (u : ℕ) (x : Scaled) (g h : ℤ) → u < 500 → IsGridNumber mode u x g
        → IsGridNumber mode u x h → g ≡ h }
{}

/// A value is one length at most, or a number with one fault.
pub fn one_length()
    ensures length { (scale : Scale) (mode : Mode) (v : Value21) (g h : ℤ) → IsLength scale mode v g
        → IsLength scale mode v h → g ≡ h }
    ensures fault { (scale : Scale) (mode : Mode) (v : Value21) (f g : GridFault)
        → LengthRefused scale mode v f → LengthRefused scale mode v g → f ≡ g }
    ensures apart { (scale : Scale) (mode : Mode) (v : Value21) (g : ℤ) (f : GridFault)
        → IsLength scale mode v g → LengthRefused scale mode v f → ⊥ }
{}

/// A value is one point at most, which is in reach, or has one fault.
pub fn one_point()
    ensures point { (scale : Scale) (mode : Mode) (v : Value21) (p q : Point) → IsPoint scale mode v p
        → IsPoint scale mode v q → p ≡ q }
    ensures fault { (scale : Scale) (mode : Mode) (v : Value21) (f g : GridFault)
        → PointRefused scale mode v f → PointRefused scale mode v g → f ≡ g }
    ensures apart { (scale : Scale) (mode : Mode) (v : Value21) (p : Point) (f : GridFault)
        → IsPoint scale mode v p → PointRefused scale mode v f → ⊥ }
    ensures reach { (scale : Scale) (mode : Mode) (v : Value21) (p : Point) → IsPoint scale mode v p
        → IsInReach p }
{}

/// Values are one list of points at most, or have one fault.
pub fn one_list_of_points()
    ensures points { (scale : Scale) (mode : Mode) (vs : List Value21) (ps qs : List Point)
        → ArePoints scale mode vs ps → ArePoints scale mode vs qs → ps ≡ qs }
    ensures fault { (scale : Scale) (mode : Mode) (vs : List Value21) (f g : GridFault)
        → PointsRefused scale mode vs f → PointsRefused scale mode vs g → f ≡ g }
    ensures apart { (scale : Scale) (mode : Mode) (vs : List Value21) (ps : List Point) (f : GridFault)
        → ArePoints scale mode vs ps → PointsRefused scale mode vs f → ⊥ }
{}

/// The numbers of an instance have one fault at most.
pub fn one_instance_fault()
    ensures { (scale : Scale) (mode : Mode) (i : Instance) (f g : GridFault) → InstanceRefused scale mode i f
        → InstanceRefused scale mode i g → f ≡ g }
{}

/// A file has one length unit at most, or has one fault.
pub fn one_length_unit()
    ensures unit { (world : List Instance) (s t : Scale) → IsLengthUnit world s → IsLengthUnit world t
        → s ≡ t }
    ensures fault { (world : List Instance) (f g : UploadFault) → LengthUnitFault world f
        → LengthUnitFault world g → f ≡ g }
    ensures apart { (world : List Instance) (s : Scale) (f : UploadFault) → IsLengthUnit world s
        → LengthUnitFault world f → ⊥ }
{}
