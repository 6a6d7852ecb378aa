//! Owned bytes, which contracts see as their list.
ghost use Rattle.std.specs.Prelude.{◌≡◌, ◌≤◌, length, take, IfOk};

use crate::items::Duplicate;
use crate::shared::Shared;
use std::alloc::{AllocError, Global};
use std::marker::Model;

/// Up to fourteen bytes, in place.
#[derive(Drop)]
struct Few {
    room: [u8; 14],
    count: u8,
    ghost fits: { count ≤ 14 },
}

/// Up to 23 bytes, in one small block: the most that the least block of common allocators holds beside a count.
#[derive(Drop)]
struct Several {
    room: [u8; 23],
    count: u8,
    ghost fits: { count ≤ 23 },
}

#[derive(Drop)]
enum Kept {
    Short(Few),
    Middle(Box<Several>),
    Long(Shared<Vec<u8>>),
}

/// Bytes that it owns, in 16 bytes of its own: up to fourteen lie in place and take no memory beside. Copies share what lies outside and is
/// longer than 23 bytes, so that a copy takes no more room however long it is.
#[derive(Drop)]
pub struct Bytes {
    kept: Kept,
}

impl Model for Bytes {
    ghost use Rattle.std.specs.Prelude.{List, ℕ};

    ghost Value = { List ℕ };

    ghost use Rattle.bim_model.specs.KeptBytes.{kept_bytes};

    ghost view = { λ b. kept_bytes b.kept };
}

impl Bytes {
    /// A copy of the bytes.
    pub fn of(alloc: Global, bytes: &[u8]) -> Result<Bytes, AllocError>
        ensures { IfOk result (λ made. made ≡ bytes.now) }
    {
        if bytes.len() <= 14 {
            Ok(Bytes {
                kept: Kept::Short(few_of(bytes)),
            })
        } else if bytes.len() <= 23 {
            Ok(Bytes {
                kept: Kept::Middle(Box::new(alloc, several_of(bytes))?),
            })
        } else {
            Bytes::from_vec(alloc, bytes.to_vec(alloc)?)
        }
    }

    /// The bytes of a vector, without a copy of them.
    pub fn from_vec(alloc: Global, bytes: Vec<u8>) -> Result<Bytes, AllocError>
        ensures { IfOk result (λ made. made ≡ bytes.items) }
    {
        Ok(Bytes {
            kept: Kept::Long(Shared::new(alloc, bytes)?),
        })
    }

    /// The bytes, lent.
    pub fn as_slice(&self) -> &[u8]
        ensures { result.now ≡ self.now }
    {
        match &self.kept {
            Kept::Short(few) => &few.room[..few.count as usize],
            Kept::Middle(several) => &several.room[..several.count as usize],
            Kept::Long(many) => many.get().as_slice(),
        }
    }
}

fn few_of(bytes: &[u8]) -> Few
    requires { length bytes.now ≤ 14 }
    ensures { take result.count result.room ≡ bytes.now }
{
    let mut room = [0; 14];
    room[..bytes.len()].copy_from_slice(bytes);
    Few {
        room,
        count: bytes.len() as u8,
    }
}

fn several_of(bytes: &[u8]) -> Several
    requires { length bytes.now ≤ 23 }
    ensures { take result.count result.room ≡ bytes.now }
{
    let mut room = [0; 23];
    room[..bytes.len()].copy_from_slice(bytes);
    let count = bytes.len() as u8;
    Several { room, count }
}

impl Duplicate for Bytes {
    fn copy(&self, alloc: Global) -> Result<Bytes, AllocError> {
        match &self.kept {
            Kept::Short(few) => Ok(Bytes {
                kept: Kept::Short(Few {
                    room: few.room,
                    count: few.count,
                }),
            }),
            Kept::Middle(_) => Bytes::of(alloc, self.as_slice()),
            Kept::Long(many) => Ok(Bytes {
                kept: Kept::Long(many.share()?),
            }),
        }
    }
}
