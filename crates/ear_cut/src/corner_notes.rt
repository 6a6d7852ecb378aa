//! What is known of each corner that is left: its angle, and how far the search for a corner inside its ear came.
// What is noted of each corner that remains, so that a removal has only its neighbours judged anew.
ghost use Rattle.std.specs.Prelude.{◌≡◌, ◌≤◌, ◌<◌, ◌==◌, ℕ, true, length, IfOk, IfSome, MatchOption, None, slice_index_or, slice_set, map, remove, false, Some};
ghost use Rattle.ear_cut.specs.declared.corners.Angle.TheVariants.{Convex};
ghost use Rattle.ear_cut.specs.Corners.{turn_at, angle_of, is_straight, nobody, InGrid, AreInGrid};
ghost use Rattle.ear_cut.specs.Removal.{is_free, is_ear, choice};
ghost use Rattle.ear_cut.specs.Registers.{as_spot};
ghost use Rattle.ear_cut.specs.PolygonViews.{seen};
ghost use Rattle.ear_cut.specs.inner.CornerFrames.{AreFrames, AreFramesIn};
ghost use Rattle.ear_cut.specs.inner.EarNotes.{blank, fresh, clear_without, shifted, settles, tells_ear, place_behind, IsClearTo, IsTrueOf, IsNoted, IsTaken, IsRemoval, IsFirst};

use crate::coordinates::Shape;
use crate::corner_frames::{Frames, RUN, end_of, follow, frame_of, is_apart, runs_of};
use crate::corners::{Angle, Corner, Turn, angle_of, previous, turn_at};
use crate::polygon_view::{View, holds, seen};
use std::alloc::{AllocError, Global};

/// What is noted of a corner.
#[derive(Clone, Copy)]
pub struct Note {
    pub angle: Angle,
    /// Whether the corner after those that are clear is known to be in its triangle.
    pub held: bool,
    /// So many corners that remain, from the first on, are not in its triangle.
    pub clear: usize,
}

/// The note of a corner whose triangle has not been searched.
fn fresh(view: Option<View>, left: &[Corner], i: usize) -> Note
    requires i_in { i < length left.now }
    requires left_in { AreInGrid left.now }
    ensures { result ≡ fresh view left.now i }
{
    Note {
        angle: angle_of(view, turn_at(left, i)),
        held: false,
        clear: 0,
    }
}

/// The notes of all corners.
pub fn notes_of(alloc: Global, view: Option<View>, left: &[Corner]) -> Result<Vec<Note>, AllocError>
    requires { AreInGrid left.now }
    ensures { IfOk result (λ notes. IsNoted view left.now notes.items) }
{
    let mut notes = Vec::with_capacity(alloc, left.len())?;
    for i in 0..left.len() {
        notes.push(fresh(view, left, i))?;
    }
    Ok(notes)
}

/// Whether the area at a corner is zero.
fn is_straight(angle: Angle) -> bool
    ensures { result ≡ is_straight angle }
{
    match angle {
        Angle::Straight => true,
        _ => false,
    }
}

/// The first corner of zero area.
fn first_straight(notes: &[Note]) -> Option<usize>
    ensures { IsFirst (λ i. is_straight (slice_index_or notes.now i blank).angle) (length notes.now) result }
{
    for i in 0..notes.len() {
        if is_straight(notes[i].angle) {
            return Some(i);
        }
    }
    None
}

/// The first of the corners from one place up to another that is in the triangle, or where they end.
fn clear_in(view: View, t: Turn, left: &[Corner], start: usize, end: usize) -> usize
    requires t_in { InGrid t }
    requires left_in { AreInGrid left.now }
    requires order { start ≤ end }
    requires end_in { end ≤ length left.now }
    ensures within { result ≤ end }
    ensures clear { (k : ℕ) → start ≤ k → k < result
        → is_free (Some view) t (slice_index_or left.now k nobody) ≡ true }
    ensures stop { result < end → is_free (Some view) t (slice_index_or left.now result nobody) ≡ false }
{
    let shape = shape_of(view, t);
    for i in start..end {
        if holds(view, shape, seen(view.axis, left[i].point)) {
            return i;
        }
    }
    end
}

/// The triangle at a corner as the view shows it.
#[inline(always)]
fn shape_of(view: View, t: Turn) -> Shape
    requires { InGrid t }
    ensures before { as_spot result.a ≡ seen view.axis t.before.point }
    ensures corner { as_spot result.b ≡ seen view.axis t.corner.point }
    ensures after { as_spot result.c ≡ seen view.axis t.after.point }
{
    Shape {
        a: seen(view.axis, t.before.point),
        b: seen(view.axis, t.corner.point),
        c: seen(view.axis, t.after.point),
    }
}

/// How many corners, from the first on, are not in the triangle of a convex corner, of which `from` are known not to
/// be. Only those runs are asked whose frames the triangle's own meets.
fn clear_to(view: View, t: Turn, left: &[Corner], frames: &Frames, from: usize) -> usize
    requires t_in { InGrid t }
    requires convex { angle_of (Some view) t ≡ Convex }
    requires left_in { AreInGrid left.now }
    requires framed { AreFrames view left.now frames.now }
    requires known { IsClearTo (Some view) left.now t from }
    ensures clear { IsClearTo (Some view) left.now t result }
    ensures stop { result < length left.now
        → is_free (Some view) t (slice_index_or left.now result nobody) ≡ false }
{
    let around = frame_of(shape_of(view, t));
    for b in from / RUN..runs_of(left.len()) {
        if is_apart(frames.runs[b], around) {
            continue;
        }
        let end = end_of(left.len(), RUN * b, RUN);
        let found = clear_in(view, t, left, RUN * b, end);
        if found < end {
            return found;
        }
    }
    left.len()
}

/// Whether the note of a corner tells without a search that it is no ear: it isn't convex, or its triangle is known to
/// hold a corner.
#[inline(always)]
fn is_settled(angle: Angle, held: bool) -> bool
    ensures { result ≡ settles angle held }
{
    match angle {
        Angle::Convex => held,
        _ => true,
    }
}

/// The note of a corner with its triangle searched.
fn searched(view: View, left: &[Corner], frames: &Frames, i: usize, note: Note) -> Note
    requires i_in { i < length left.now }
    requires left_in { AreInGrid left.now }
    requires framed { AreFrames view left.now frames.now }
    requires known { IsTrueOf (Some view) left.now i note }
    requires open { settles note.angle note.held ≡ false }
    ensures known { IsTrueOf (Some view) left.now i result }
    ensures tells { tells_ear result (length left.now) ≡ is_ear (Some view) left.now (turn_at left.now i) }
{
    let clear = clear_to(view, turn_at(left, i), left, frames, note.clear);
    Note {
        angle: note.angle,
        held: clear < left.len(),
        clear,
    }
}

/// Whether the note of a corner, with its triangle searched, says that it is an ear of n corners.
fn tells_ear(note: Note, n: usize) -> bool
    ensures { result ≡ tells_ear note n }
{
    match note.angle {
        Angle::Convex => note.clear == n,
        _ => false,
    }
}

/// The first ear.
fn first_ear(view: View, left: &[Corner], frames: &Frames, notes: &mut [Note]) -> Option<usize>
    requires left_in { AreInGrid left.now }
    requires framed { AreFrames view left.now frames.now }
    requires noted { IsNoted (Some view) left.now notes.old }
    ensures first { IsFirst (λ i. is_ear (Some view) left.now (turn_at left.now i)) (length left.now) result }
    ensures noted { IsNoted (Some view) left.now notes.new }
{
    for i in 0..left.len() {
        if is_settled(notes[i].angle, notes[i].held) {
            continue;
        }
        let note = searched(view, left, frames, i, notes[i]);
        notes[i] = note;
        if tells_ear(note, left.len()) {
            return Some(i);
        }
    }
    None
}

/// The first ear; without a view there is none.
fn first_seen_ear(
    view: Option<View>,
    left: &[Corner],
    frames: &Frames,
    notes: &mut [Note],
) -> Option<usize>
    requires left_in { AreInGrid left.now }
    requires framed { AreFramesIn view left.now frames.now }
    requires noted { IsNoted view left.now notes.old }
    ensures first { IsFirst (λ i. is_ear view left.now (turn_at left.now i)) (length left.now) result }
    ensures noted { IsNoted view left.now notes.new }
{
    match view {
        None => None,
        Some(view) => first_ear(view, left, frames, notes),
    }
}

/// The corner that goes next.
fn choice(view: Option<View>, left: &[Corner], frames: &Frames, notes: &mut [Note]) -> Option<usize>
    requires left_in { AreInGrid left.now }
    requires framed { AreFramesIn view left.now frames.now }
    requires noted { IsNoted view left.now notes.old }
    ensures choice { result ≡ choice view left.now }
    ensures within { IfSome result (λ i. i < length left.now) }
    ensures noted { IsNoted view left.now notes.new }
{
    match first_straight(notes) {
        Some(i) => Some(i),
        None => first_seen_ear(view, left, frames, notes),
    }
}

/// How many corners are clear with the i-th taken out of the list.
#[inline(always)]
fn clear_without(clear: usize, i: usize) -> usize
    ensures { result ≡ clear_without i clear }
{
    if i < clear { clear - 1 } else { clear }
}

/// Moves a note where the i-th corner was taken out of the list.
#[inline(always)]
fn shift_note(note: &mut Note, i: usize)
    ensures { note.new ≡ shifted i note.old }
{
    let clear = note.clear;
    note.held = note.held && i != clear;
    note.clear = clear_without(clear, i);
}

/// Moves the notes where the i-th corner was taken out of the list.
fn shift(notes: &mut [Note], i: usize)
    ensures { notes.new ≡ map (shifted i) notes.old }
{
    for note in notes.iter_mut() {
        shift_note(note, i);
    }
}

/// Judges a corner anew.
fn renew(view: Option<View>, left: &[Corner], notes: &mut [Note], i: usize)
    requires i_in { i < length left.now }
    requires left_in { AreInGrid left.now }
    requires count { length notes.old ≡ length left.now }
    ensures { notes.new ≡ slice_set notes.old i (fresh view left.now i) }
{
    notes[i] = fresh(view, left, i);
}

/// The place, among n corners, that is after the i-th once that is taken out.
fn place_behind(n: usize, i: usize) -> usize
    requires { i ≤ n }
    ensures { result ≡ place_behind n i }
{
    if i == n { 0 } else { i }
}

/// Brings the notes up to date where the i-th corner and its note were taken out.
fn update(view: Option<View>, left: &[Corner], notes: &mut [Note], i: usize)
    requires left_in { AreInGrid left.now }
    requires taken { IsTaken view left.now notes.old i }
    ensures { IsNoted view left.now notes.new }
{
    shift(notes, i);
    let after = place_behind(left.len(), i);
    renew(view, left, notes, previous(left.len(), after));
    renew(view, left, notes, after);
}

/// Takes the i-th corner out, and judges its neighbours anew.
fn remove_at(view: Option<View>, left: &mut Vec<Corner>, notes: &mut Vec<Note>, i: usize)
    requires i_in { i < length left.old.items }
    requires many { 3 < length left.old.items }
    requires left_in { AreInGrid left.old.items }
    requires noted { IsNoted view left.old.items notes.old.items }
    ensures removed { left.new.items ≡ remove left.old.items i }
    ensures left_in { AreInGrid left.new.items }
    ensures noted { IsNoted view left.new.items notes.new.items }
{
    let _ = left.remove(i);
    let _ = notes.remove(i);
    update(view, left, notes, i);
}

/// Takes out the corner that goes next, and gives it between its neighbours.
pub fn take_next(
    view: Option<View>,
    left: &mut Vec<Corner>,
    frames: &mut Frames,
    notes: &mut Vec<Note>,
) -> Option<Turn>
    requires many { 3 < length left.old.items }
    requires left_in { AreInGrid left.old.items }
    requires framed { AreFramesIn view left.old.items frames.old }
    requires noted { IsNoted view left.old.items notes.old.items }
    ensures { MatchOption result (choice view left.old.items ≡ None)
        (λ t. IsRemoval view left.old.items t left.new.items frames.new notes.new.items) }
{
    match choice(view, left, frames, notes) {
        None => None,
        Some(i) => {
            let t = turn_at(left, i);
            remove_at(view, left, notes, i);
            follow(view, left, frames);
            Some(t)
        }
    }
}
