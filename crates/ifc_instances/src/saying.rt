//! What attributes of an instance say.
ghost use Rattle.std.specs.Prelude.{◌≡◌};
ghost use Rattle.ifc_instances.specs.EntityLookup.{says};

use p21_table::InstanceRef;

/// Whether the attribute of that number is the enumeration of those letters (ISO 10303-21, section 6.4.7). Takes no memory.
pub fn says(word: &str, instance: &InstanceRef<'_>, at: usize) -> bool
    ensures { result ≡ says word.now instance.now at }
{
    let Some(value) = instance.attribute(at) else {
        return false;
    };
    match value.enumeration() {
        Some(letters) => letters == word.as_bytes(),
        None => false,
    }
}
