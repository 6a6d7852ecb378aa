//! A file that was read: its instances by rising number.
ghost use Rattle.p21_values.specs.Tables.{Meaning};
ghost use Rattle.p21_values.proofs.Stood.{one_world};

use crate::instance_list::Instances;
use bim_model::{Bytes, know};
use p21_values::Head;
use std::marker::Model;

/// The instances of a file's DATA section: at most 1,000,000 with at most 8,000,000 values. It keeps the file's bytes, for each instance a
/// head, for each attribute where it begins, and notes of where numbers stand among the heads, which are tried first. Contracts see it as
/// the list of its instances, which rises by their numbers.
#[derive(Drop)]
pub struct Exchange {
    bytes: Bytes,
    heads: Vec<Head>,
    starts: Vec<u32>,
    notes: Vec<u32>,
    ghost holds: { Meaning bytes starts.items heads.items } by { one_world bytes starts.items heads.items },
}

impl Model for Exchange {
    ghost use Rattle.std.specs.Prelude.{List, ◌≤◌, length};
    ghost use Rattle.p21_values.specs.Counting.{values_of};
    ghost use Rattle.p21_values.specs.InstancePlaces.{Rises};
    ghost use Rattle.p21_values.specs.declared.limits.TheConstants.{MOST_INSTANCES, MOST_VALUES};
    ghost use Rattle.p21_values.specs.declared.value.Instance.{Instance};
    ghost use Rattle.p21_values.specs.contracts.value.Value21 as value;
    ghost use Rattle.std.specs.Coded.{codes};

    ghost coded = { Prim.hlevel (codes, value.the_row.coded) };

    ghost Value = { List Instance };

    ghost view = { λ e. e.holds.0 };

    ghost invariant = { λ e. Rises e.holds.0 × (length e.holds.0 ≤ MOST_INSTANCES)
        × (values_of e.holds.0 ≤ MOST_VALUES) };
}

/// What an exchange keeps, lent.
#[derive(Clone, Copy)]
pub(crate) struct Kept<'a> {
    pub bytes: &'a [u8],
    pub heads: &'a [Head],
    pub starts: &'a [u32],
    pub notes: &'a [u32],
}

impl Exchange {
    ghost use Rattle.std.specs.Prelude.{◌≡◌, ◌≤◌, List, length, map};
    ghost use Rattle.p21_values.specs.Counting.{values_of};
    ghost use Rattle.p21_values.specs.InstancePlaces.{Rises};
    ghost use Rattle.p21_values.specs.Tables.{Holds};
    ghost use Rattle.p21_values.specs.declared.limits.TheConstants.{MOST_INSTANCES, MOST_VALUES};
    ghost use Rattle.p21_values.specs.declared.value.Instance.{Instance};

    /// The exchange that a table over these bytes tells.
    pub fn of(bytes: Bytes, heads: Vec<Head>, starts: Vec<u32>, notes: Vec<u32>) -> Exchange
        requires { (world : List Instance) × Holds bytes starts.items heads.items world × Rises world
            × (length world ≤ MOST_INSTANCES) × (values_of world ≤ MOST_VALUES) }
        ensures { (world : List Instance) → Holds bytes starts.items heads.items world → result ≡ world }
    {
        Exchange {
            bytes,
            heads,
            starts,
            notes,
        }
    }

    /// What it keeps.
    #[inline(always)]
    pub(crate) fn kept(&self) -> Kept<'_>
        ensures holds { ∥ Holds result.bytes.now result.starts.now result.heads.now self.now ∥₁ }
        ensures ids { map (λ h. h.id) result.heads.now ≡ map (λ i. i.id) self.now }
        ensures rises { Rises self.now }
        ensures few { length self.now ≤ MOST_INSTANCES }
    {
        Kept {
            bytes: self.bytes.as_slice(),
            heads: self.heads.as_slice(),
            starts: self.starts.as_slice(),
            notes: self.notes.as_slice(),
        }
    }

    /// How many instances there are.
    pub fn len(&self) -> usize
        ensures count { result ≡ length self.now }
        ensures few { result ≤ MOST_INSTANCES }
    {
        self.kept().heads.len()
    }

    /// All instances, strictly rising by their numbers.
    pub fn iter(&self) -> Instances<'_>
        ensures same { result ≡ self.now }
        ensures rises { Rises self.now }
        ensures few { length self.now ≤ MOST_INSTANCES }
    {
        know(&self.bytes);
        Instances::of(self, 0)
    }
}
