//! Whether the identifiers of elements differ.
ghost use Rattle.std.specs.Prelude.{◌≡◌, ◌<◌, ◌≤◌, length, IfOk};
ghost use Rattle.std.specs.Bool.{OnTrue};
ghost use Rattle.model_walk.specs.Checked.{Differ};
ghost use Rattle.model_walk.specs.inner.GuidSlots.{hash_seen, slot_seen, guids_seen, AreNoted, AreChained, IsNew};

use bim_model::Element;
use std::alloc::{AllocError, Global};

/// A hash of an identifier, by its last twelve characters: most files have identifiers that differ there.
fn hash_of(chars: &[u8; 22]) -> u32
    ensures { result ≡ hash_seen 12 chars.now }
{
    let mut hash: u32 = 0;
    for at in 0..12 {
        hash = hash.wrapping_mul(31).wrapping_add(chars[at + 10] as u32);
    }
    hash
}

/// The slot of an identifier, of so many slots.
fn slot_of(chars: &[u8; 22], size: u32) -> usize
    requires { 0 < size }
    ensures within { result < size }
    ensures same { result ≡ slot_seen size chars.now }
{
    (hash_of(chars) % size) as usize
}

/// Whether none of the elements in the chain of a slot has this identifier, which has that slot. False says nothing: it is also told where `left`
/// of them were looked at.
fn is_new(
    elements: &[Element],
    last: &[u32],
    before: &[u32],
    guid: &[u8; 22],
    slot: usize,
    left: &mut usize,
) -> bool
    requires within { length before.now ≤ length elements.now }
    requires slot { slot < length last.now }
    requires same { slot ≡ slot_seen (length last.now) guid.now }
    requires noted { AreNoted (length last.now) (guids_seen elements.now) last.now (length before.now) }
    requires chained { AreChained (length last.now) (guids_seen elements.now) before.now }
    ensures { OnTrue result (IsNew (guids_seen elements.now) (length before.now) guid.now) }
{
    let mut other = last[slot];
    while other != 0 {
        let place = other as usize - 1;
        if *left == 0 || elements[place].guid.chars == *guid {
            return false;
        }
        *left -= 1;
        other = before[place];
    }
    true
}

/// Whether no two elements have the same identifier, told by those that share a slot, without sorting. False says nothing: it is also told where
/// very many share slots.
pub fn differ_by_hash(alloc: Global, elements: &[Element]) -> Result<bool, AllocError>
    ensures { IfOk result (λ differ. OnTrue differ (Differ elements.now)) }
{
    let count = elements.len();
    if count >= 0x8000_0000 {
        return Ok(false);
    }
    let size = 2 * count as u32 + 1;
    let mut last = vec![in alloc; 0; size as usize]?;
    let mut before: Vec<u32> = Vec::with_capacity(alloc, count)?;
    let mut left = 8 * count;
    for at in 0..count {
        let guid = elements[at].guid.chars;
        let slot = slot_of(&guid, size);
        if !is_new(elements, &last, &before, &guid, slot, &mut left) {
            return Ok(false);
        }
        before.push(last[slot])?;
        last[slot] = at as u32 + 1;
    }
    Ok(true)
}
