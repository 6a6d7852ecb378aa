//! Identifiers made of a project's number and an object's serial number.
ghost use Rattle.std.specs.Prelude.{◌≡◌, ◌<◌, ◌≤◌, ◌^◌, ℕ};
ghost use Rattle.bim_model.specs.Identifiers.{identifier, IsSerialOf};

/// The identifier of the object with this serial number in a project, as a UUID's 128 bits.
pub fn id_of(project: u32, serial: u64) -> u128
    ensures { result ≡ identifier project serial }
{
    ((project as u128) << 96) + (0x8000_8000 << 48) + serial as u128
}

/// The serial number below 2^48 that an identifier names in a project.
pub fn serial_of(project: u32, id: u128) -> Option<u64>
    ensures { IsSerialOf project id result }
{
    let base = id_of(project, 0);
    if id < base {
        return None;
    }
    let serial = id - base;
    if serial < 1 << 48 {
        Some(serial as u64)
    } else {
        None
    }
}
