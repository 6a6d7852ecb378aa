//! What numbers and references lead to.
use crate::exchange::Exchange;
use crate::instance_ref::InstanceRef;
use crate::places;
use crate::value_ref::ValueRef;

impl Exchange {
    ghost use Rattle.std.specs.Prelude.{◌≡◌, ◌<◌, ◌≤◌, None, Some, MatchOption, length, option_and_then};
    ghost use Rattle.std.specs.List.{slice_get};
    ghost use Rattle.p21_values.specs.Values.{reference_of};
    ghost use Rattle.p21_values.specs.InstanceLookup.{look};
    ghost use Rattle.p21_values.specs.InstancePlaces.{IsPlaceOf};
    ghost use Rattle.p21_values.specs.Attributes.{target_at, value_at, referred_at};

    /// The instance at a place.
    pub fn instance(&self, at: usize) -> InstanceRef<'_>
        requires { at < length self.now }
        ensures { slice_get self.now at ≡ Some result }
    {
        InstanceRef::of(self, at)
    }

    /// Where the instance of that number stands in the list of instances.
    pub fn place_of(&self, id: u64) -> Option<usize>
        ensures { MatchOption result (look self.now id ≡ None) (IsPlaceOf self.now id) }
    {
        places::place_of(self, id)
    }

    /// The instance of that number.
    pub fn look(&self, id: u64) -> Option<InstanceRef<'_>>
        ensures { result ≡ look self.now id }
    {
        match self.place_of(id) {
            Some(at) => Some(self.instance(at)),
            None => None,
        }
    }

    /// The instance that a value refers to.
    pub fn target(&self, value: &ValueRef<'_>) -> Option<InstanceRef<'_>>
        ensures { result ≡ option_and_then (look self.now) (reference_of value.now) }
    {
        match value.reference() {
            Some(id) => self.look(id),
            None => None,
        }
    }

    /// The instance that an attribute refers to.
    pub fn target_at(&self, instance: &InstanceRef<'_>, at: usize) -> Option<InstanceRef<'_>>
        ensures { result ≡ target_at self.now instance.now at }
    {
        match instance.reference_at(at) {
            Some(id) => self.look(id),
            None => None,
        }
    }

    /// An attribute of the instance of that number.
    pub fn value_at(&self, id: u64, at: usize) -> Option<ValueRef<'_>>
        ensures { result ≡ value_at self.now id at }
    {
        match self.look(id) {
            Some(instance) => instance.attribute(at),
            None => None,
        }
    }

    /// The number of the instance that an attribute of the instance of that number refers to.
    pub fn referred_at(&self, id: u64, at: usize) -> Option<u64>
        ensures { result ≡ referred_at self.now id at }
    {
        match self.value_at(id, at) {
            Some(value) => value.reference(),
            None => None,
        }
    }
}
