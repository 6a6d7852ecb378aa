//! The least number that two instances bear.
ghost use Rattle.std.specs.Prelude.{◌≡◌, List, IsSortedByKey, IfSome, IfNone, map};
ghost use Rattle.std.specs.Ordering.{nat_cmp};
ghost use Rattle.p21_reader.specs.Uploads.{IsLeastDouble};
ghost use Rattle.p21_values.specs.InstancePlaces.{Rises};
ghost use Rattle.p21_values.specs.declared.value.Instance.{Instance};

use p21_values::Head;

/// The least number that two of these heads have, which are sorted by their numbers.
pub fn least_double(heads: &[Head]) -> Option<u64>
    requires { IsSortedByKey (λ h. h.id) nat_cmp heads.now }
    ensures double { (found : List Instance) → map (λ i. i.id) found ≡ map (λ h. h.id) heads.now
        → IfSome result (λ id. IsLeastDouble id found) }
    ensures none { (found : List Instance) → map (λ i. i.id) found ≡ map (λ h. h.id) heads.now
        → IfNone result (Rises found) }
{
    let mut at = 1;
    while at < heads.len() {
        let id = heads[at].id;
        if heads[at - 1].id == id {
            return Some(id);
        }
        at += 1;
    }
    None
}
