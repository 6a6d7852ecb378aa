//! Where instances stand in the list of a file, by their numbers.
ghost use Rattle.std.specs.Prelude.{◌≡◌, ◌+◌, ◌*◌, ◌^◌, ◌<◌, ◌≤◌, IfOk, MatchOption, None, length};
ghost use Rattle.std.specs.List.{HoldsAt};
ghost use Rattle.std.specs.Bool.{OnTrue};
ghost use Rattle.p21_values.specs.declared.instance_head.Head.{Head};
ghost use Rattle.p21_values.specs.InstanceLookup.{look};
ghost use Rattle.p21_values.specs.InstancePlaces.{IsPlaceOf};

use crate::exchange::Exchange;
use p21_values::Head;
use std::alloc::{AllocError, Global};

/// Where an instance of that number would stand if the numbers rose evenly.
fn even_place(heads: &[Head], id: u64) -> usize
    ensures { result ≤ length heads.now }
{
    let (Some(first), Some(last)) = (heads.first(), heads.last()) else {
        return 0;
    };
    let span = last.id.saturating_sub(first.id);
    let ahead = id.saturating_sub(first.id);
    if span == 0 || ahead > span {
        return 0;
    }
    let place = ahead as u128 * heads.len() as u128 / span as u128;
    (place as usize).min(heads.len())
}

/// Where an instance of that number would stand among those no farther than a width from a place.
fn place_near(heads: &[Head], id: u64, about: usize, width: usize) -> usize
    requires { about ≤ length heads.now }
    ensures { result ≤ length heads.now }
{
    let from = about.saturating_sub(width);
    let to = about.saturating_add(width).min(heads.len());
    from + heads[from..to].partition_point(|head| head.id < id)
}

/// Whether the instance of that number stands there.
fn is_place(heads: &[Head], id: u64, at: usize) -> bool
    ensures { OnTrue result ((at < length heads.now) × HoldsAt (λ (h : Head). h.id ≡ id) heads.now at) }
{
    if at < heads.len() {
        if heads[at].id == id {
            return true;
        }
    }
    false
}

/// Where the instance of that number stands, found by halving.
fn halved_place(exchange: &Exchange, id: u64) -> Option<usize>
    ensures { MatchOption result (look exchange.now id ≡ None) (IsPlaceOf exchange.now id) }
{
    let heads = exchange.kept().heads;
    let at = heads.partition_point(|head| head.id < id);
    if at < heads.len() {
        if heads[at].id == id {
            return Some(at);
        }
    }
    None
}

/// A note for each number up to the greatest: the place of its head. No notes where most numbers aren't used.
pub fn noted_places(alloc: Global, heads: &[Head]) -> Result<Vec<u32>, AllocError>
    ensures few { IfOk result (λ made. length made.items ≤ 8 * length heads.now + 64) }
{
    let numbers = match heads.last() {
        Some(last) => last.id,
        None => 0,
    };
    if numbers >= 8 * heads.len() as u64 + 64 {
        return Ok(Vec::new(alloc));
    }
    let mut made = vec![in alloc; 0; numbers as usize + 1]?;
    for at in 0..heads.len() {
        note(&mut made, heads[at].id, at);
    }
    Ok(made)
}

/// Notes a place.
fn note(notes: &mut [u32], id: u64, at: usize)
    ensures { length notes.new ≡ length notes.old }
{
    if id < notes.len() as u64 && at <= u32::MAX as usize {
        notes[id as usize] = at as u32;
    }
}

/// The place that is noted for a number; 0 where there is no note.
#[inline(always)]
fn noted_place(notes: &[u32], id: u64) -> usize
    ensures { result < 2 ^ 32 }
{
    if id < notes.len() as u64 {
        notes[id as usize] as usize
    } else {
        0
    }
}

/// Where the instance of that number stands in the list of instances. The place that is noted is tried first. Most files number their
/// instances about evenly, so it is sought near the even place next.
pub(crate) fn place_of(exchange: &Exchange, id: u64) -> Option<usize>
    ensures { MatchOption result (look exchange.now id ≡ None) (IsPlaceOf exchange.now id) }
{
    let kept = exchange.kept();
    let heads = kept.heads;
    let noted = noted_place(kept.notes, id);
    if is_place(heads, id, noted) {
        return Some(noted);
    }
    let about = even_place(heads, id);
    let near = place_near(heads, id, about, 16);
    if is_place(heads, id, near) {
        return Some(near);
    }
    let far = place_near(heads, id, about, 1024);
    if is_place(heads, id, far) {
        return Some(far);
    }
    halved_place(exchange, id)
}
