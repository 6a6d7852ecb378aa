//! A law for callers: a table has one meaning.
ghost use Rattle.std.specs.Prelude.{◌≡◌, ℕ, List};
ghost use Rattle.p21_values.specs.declared.value.Instance.{Instance};
ghost use Rattle.p21_values.specs.declared.instance_head.Head.{Head};
ghost use Rattle.p21_values.specs.Tables.{Holds};

/// A table over bytes tells one list of instances at most.
pub fn tables_have_one_meaning()
    ensures { (bytes starts : List ℕ) (heads : List Head) (a b : List Instance) → Holds bytes starts heads a
        → Holds bytes starts heads b → a ≡ b }
{}
