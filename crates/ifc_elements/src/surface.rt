//! The surfaces of elements.
ghost use Rattle.std.specs.Prelude.{◌≡◌, ℕ, ◌∷◌, ◌++◌, [], List, length, map, flat_map, sum_by, All, Any, IfOk, OnOk, MatchOption};
ghost use Rattle.std.specs.Bool.{MatchBool};
ghost use Rattle.bim_model.specs.Boxes.{corners_of};
ghost use Rattle.bim_model.specs.Models.{IsInReach};
ghost use Rattle.p21_values.specs.declared.value.Instance.{Instance};
ghost use Rattle.placement.specs.Frames.{IsFrame, AreWithin, most};
ghost use Rattle.ifc_units.specs.Lengths.{reach};
ghost use Rattle.faceset.specs.FaceSets.{Joined};
ghost use Rattle.p21_values.specs.Attributes.{led_to};
ghost use Rattle.ifc_elements.specs.Items.{items_of, item_count, body_items, bodies};
ghost use Rattle.ifc_elements.specs.Finding.{Number};
ghost use Rattle.ifc_elements.specs.Shapes.{AreShapes};
ghost use Rattle.ifc_elements.specs.Surfaces.{ItemSurface, moved};
ghost use Rattle.ifc_elements.specs.Sound.{AreSets, ReadySet, ReadyMapped, ReadyItem, ReadyBody, Adds, KeptSet, KeptMapped, KeptItem, IsOut};

use crate::body_items::{is_mapped_item, spelled_items, spelled_sets};
use crate::kept_sets::Sets;
use crate::shapes::{Shapes, bodies};
use bim_model::{Mode, Triangle};
use ifc_units::Scale;
use p21_table::{Exchange, InstanceRef, ValueRef, Values};
use placement::{Frame, operator_frame};
use std::alloc::{AllocError, Global};

/// Adds the triangles of the set that a value refers to. False where they aren't there, as in all that follows.
fn add_set(
    exchange: &Exchange,
    sets: &Sets,
    value: &ValueRef<'_>,
    out: &mut Vec<Triangle>,
) -> Result<bool, AllocError>
    ensures near { All IsInReach (corners_of out.old.items)
        → OnOk result (All IsInReach (corners_of out.new.items)) }
    ensures added { (scale : Scale) (mode : Mode) (listed : List ℕ)
        → AreSets exchange.now scale mode listed sets.now
        → IfOk result (λ done. MatchBool done
        (Adds (Joined (KeptSet exchange.now scale mode)
        (led_to exchange.now (value.now ∷ []))) out.old.items out.new.items)
        (ReadySet exchange.now listed value.now → ⊥)) }
{
    let Some(id) = value.reference() else {
        return Ok(true);
    };
    let Some(_set) = exchange.look(id) else {
        return Ok(true);
    };
    match sets.get(id) {
        Some(triangles) => {
            out.extend_from_slice(triangles)?;
            Ok(true)
        }
        None => Ok(false),
    }
}

/// Adds the triangles of the sets that values refer to, one set after another.
fn add_sets(
    exchange: &Exchange,
    sets: &Sets,
    values: &Values<'_>,
    out: &mut Vec<Triangle>,
) -> Result<bool, AllocError>
    ensures near { All IsInReach (corners_of out.old.items)
        → OnOk result (All IsInReach (corners_of out.new.items)) }
    ensures added { (scale : Scale) (mode : Mode) (listed : List ℕ)
        → AreSets exchange.now scale mode listed sets.now
        → IfOk result (λ done. MatchBool done
        (Adds (Joined (KeptSet exchange.now scale mode)
        (led_to exchange.now values.now)) out.old.items out.new.items)
        (All (ReadySet exchange.now listed) values.now → ⊥)) }
{
    for value in values.iter() {
        let added = add_set(exchange, sets, &value, out)?;
        if !added {
            return Ok(false);
        }
    }
    Ok(true)
}

/// The triangle carried by a frame.
fn carry(frame: &Frame, triangle: &Triangle) -> Triangle
    requires frame { IsFrame frame.now }
    requires near { AreWithin reach frame.now.offset }
    requires reach { All IsInReach (corners_of (triangle.now ∷ [])) }
    ensures { result ≡ moved frame.now triangle.now }
{
    Triangle {
        a: frame.carry(triangle.a),
        b: frame.carry(triangle.b),
        c: frame.carry(triangle.c),
    }
}

/// Adds triangles that are carried by a frame.
fn add_carried(frame: &Frame, own: &[Triangle], out: &mut Vec<Triangle>) -> Result<(), AllocError>
    requires frame { IsFrame frame.now }
    requires near { AreWithin reach frame.now.offset }
    requires reach { All IsInReach (corners_of own.now) }
    ensures { OnOk result (out.new.items ≡ out.old.items ++ map (moved frame.now) own.now) }
{
    for triangle in own {
        out.push(carry(frame, triangle))?;
    }
    Ok(())
}

/// Adds the triangles of a mapped item.
fn add_mapped(
    alloc: Global,
    exchange: &Exchange,
    sets: &Sets,
    item: &InstanceRef<'_>,
    scale: Scale,
    mode: Mode,
    out: &mut Vec<Triangle>,
) -> Result<bool, AllocError>
    ensures { (listed : List ℕ) → AreSets exchange.now scale mode listed sets.now
        → IfOk result (λ done. MatchBool done
        (Adds (KeptMapped exchange.now scale mode item.now) out.old.items out.new.items)
        (ReadyMapped exchange.now scale mode listed item.now → ⊥)) }
{
    let Some(operator) = item.reference_at(1) else {
        return Ok(false);
    };
    let Some(frame) = operator_frame(exchange, operator, scale, mode) else {
        return Ok(false);
    };
    let mut own = Vec::new(alloc);
    let added = add_sets(exchange, sets, &spelled_sets(exchange, item), &mut own)?;
    if !added {
        return Ok(false);
    }
    add_carried(&frame, &own, out)?;
    Ok(true)
}

/// Adds the triangles of the item that a value refers to.
fn add_item(
    alloc: Global,
    exchange: &Exchange,
    sets: &Sets,
    value: &ValueRef<'_>,
    scale: Scale,
    mode: Mode,
    out: &mut Vec<Triangle>,
) -> Result<bool, AllocError>
    ensures { (listed : List ℕ) → AreSets exchange.now scale mode listed sets.now
        → IfOk result (λ done. MatchBool done
        (Adds (Joined (KeptItem exchange.now scale mode)
        (led_to exchange.now (value.now ∷ []))) out.old.items out.new.items)
        (ReadyItem exchange.now scale mode listed value.now → ⊥)) }
{
    let Some(id) = value.reference() else {
        return Ok(true);
    };
    let Some(item) = exchange.look(id) else {
        return Ok(true);
    };
    if is_mapped_item(&item) {
        let mapped = add_mapped(alloc, exchange, sets, &item, scale, mode, out)?;
        return Ok(mapped);
    }
    let added = add_set(exchange, sets, value, out)?;
    Ok(added)
}

/// Adds the triangles of the items that values refer to, one item after another.
fn add_items(
    alloc: Global,
    exchange: &Exchange,
    sets: &Sets,
    values: &Values<'_>,
    scale: Scale,
    mode: Mode,
    out: &mut Vec<Triangle>,
) -> Result<bool, AllocError>
    ensures { (listed : List ℕ) → AreSets exchange.now scale mode listed sets.now
        → IfOk result (λ done. MatchBool done
        (Adds (Joined (KeptItem exchange.now scale mode)
        (led_to exchange.now values.now)) out.old.items out.new.items)
        (All (ReadyItem exchange.now scale mode listed) values.now → ⊥)) }
{
    for value in values.iter() {
        let added = add_item(alloc, exchange, sets, &value, scale, mode, out)?;
        if !added {
            return Ok(false);
        }
    }
    Ok(true)
}

/// The triangles of the items of the representations of these numbers, one after another. None where those of one aren't there.
fn bodies_triangles(
    alloc: Global,
    exchange: &Exchange,
    sets: &Sets,
    ids: &[u64],
    scale: Scale,
    mode: Mode,
) -> Result<Option<Vec<Triangle>>, AllocError>
    ensures { (listed : List ℕ) (are : List Instance) → AreSets exchange.now scale mode listed sets.now
        → Number exchange.now ids.now are
        → IfOk result (λ made. MatchOption made (All (ReadyBody exchange.now scale mode listed) are → ⊥)
        (λ own. Joined (KeptItem exchange.now scale mode) (flat_map (items_of exchange.now) are) own.items)) }
{
    let mut own = Vec::new(alloc);
    for id in ids {
        let Some(body) = exchange.look(*id) else {
            return Ok(None);
        };
        let added = add_items(
            alloc,
            exchange,
            sets,
            &spelled_items(&body),
            scale,
            mode,
            &mut own,
        )?;
        if !added {
            return Ok(None);
        }
    }
    Ok(Some(own))
}

/// The triangles of all items of the bodies of an element, in its own coordinates. None where those of one aren't there.
pub fn own_triangles(
    alloc: Global,
    exchange: &Exchange,
    shapes: &Shapes,
    sets: &Sets,
    element: &InstanceRef<'_>,
    scale: Scale,
    mode: Mode,
) -> Result<Option<Vec<Triangle>>, AllocError>
    requires { AreShapes exchange.now shapes.now }
    ensures { (listed : List ℕ) → AreSets exchange.now scale mode listed sets.now
        → IfOk result (λ made. MatchOption made
        (All (ReadyBody exchange.now scale mode listed) (bodies exchange.now element.now) → ⊥)
        (λ own. Joined (ItemSurface exchange.now scale mode) (body_items exchange.now element.now) own.items
        × (length own.items ≡ sum_by (item_count exchange.now) (body_items exchange.now element.now)))) }
{
    let found = bodies(alloc, exchange, shapes, element)?;
    bodies_triangles(alloc, exchange, sets, &found, scale, mode)
}

/// The triangle in the building. None where a corner isn't in reach.
fn moved(frame: &Frame, triangle: &Triangle) -> Option<Triangle>
    requires frame { IsFrame frame.now }
    requires near { AreWithin most frame.now.offset }
    ensures { MatchOption result (Any IsOut (corners_of (moved frame.now triangle.now ∷ [])))
        (λ there. (there ≡ moved frame.now triangle.now) × All IsInReach (corners_of (there ∷ []))) }
{
    let Some(a) = frame.place(triangle.a) else {
        return None;
    };
    let Some(b) = frame.place(triangle.b) else {
        return None;
    };
    let Some(c) = frame.place(triangle.c) else {
        return None;
    };
    Some(Triangle { a, b, c })
}

/// The triangles in the building. None where a corner isn't in reach.
pub fn all_moved(
    alloc: Global,
    frame: &Frame,
    own: &[Triangle],
) -> Result<Option<Vec<Triangle>>, AllocError>
    requires frame { IsFrame frame.now }
    requires near { AreWithin most frame.now.offset }
    ensures { IfOk result (λ made. MatchOption made (Any IsOut (corners_of (map (moved frame.now) own.now)))
        (λ there. (there.items ≡ map (moved frame.now) own.now) × All IsInReach (corners_of there.items))) }
{
    let mut made = Vec::with_capacity(alloc, own.len())?;
    for triangle in own {
        match moved(frame, triangle) {
            Some(there) => made.push(there)?,
            None => return Ok(None),
        }
    }
    Ok(Some(made))
}
