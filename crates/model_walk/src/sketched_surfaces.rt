//! The surfaces of elements, made of rows.
ghost use Rattle.std.specs.Prelude.{◌≡◌, ◌++◌, ◌∷◌, [], length, Some, All, OnOk, IfOk, IfSome, map};
ghost use Rattle.std.specs.Bool.{OnTrue};
ghost use Rattle.bim_model.specs.Boxes.{corners_of};
ghost use Rattle.bim_model.specs.Models.{IsInReach};
ghost use Rattle.placement.specs.Frames.{carried};
ghost use Rattle.ifc_elements.specs.Framed.{Framed};
ghost use Rattle.ifc_elements.specs.Surfaces.{placed_by, moved};
ghost use Rattle.walk_rows.specs.Rows.{triangle_at, triangles_at};
ghost use Rattle.model_walk.specs.inner.SurfacePieces.{IsOperator, IsUnmapped, ArePlacedNear};
ghost use Rattle.model_walk.specs.Sketches.{piece_triangles, pieces_in, range_triangles, elements_of, IsCarried, IsSoundStock, IsRangeIn, IsNearSketch};

use crate::element_sketches::{Drawn, Stock};
use crate::shape_pieces::{Piece, Range};
use bim_model::{Element, Items, Point, Triangle};
use placement::Frame;
use std::alloc::{AllocError, Global};
use walk_rows::{Row, triangle_at};

/// Whether a point is in reach once it is carried.
fn is_near(frame: &Frame, point: Point) -> bool
    requires { Framed frame.now }
    ensures { OnTrue result (IsInReach (carried frame.now point)) }
{
    frame.place(point).is_some()
}

/// .. and so each corner of a triangle.
fn are_carried_near(frame: &Frame, triangle: &Triangle) -> bool
    requires { Framed frame.now }
    ensures { OnTrue result (All IsInReach (corners_of (moved frame.now triangle.now ∷ []))) }
{
    is_near(frame, triangle.a) && is_near(frame, triangle.b) && is_near(frame, triangle.c)
}

/// A triangle carried by a frame.
fn carry(frame: &Frame, triangle: &Triangle) -> Triangle
    requires operator { IsOperator (Some frame.now) }
    requires reach { All IsInReach (corners_of (triangle.now ∷ [])) }
    ensures { result ≡ moved frame.now triangle.now }
{
    Triangle {
        a: frame.carry(triangle.a),
        b: frame.carry(triangle.b),
        c: frame.carry(triangle.c),
    }
}

/// The triangle of a row in the coordinates of its element.
fn own_triangle(points: &[Point], operator: &Option<Frame>, row: Row) -> Triangle
    requires operator { IsOperator operator.now }
    requires near { All IsInReach (corners_of (triangle_at points.now row ∷ [])) }
    ensures { result ≡ placed_by operator.now (triangle_at points.now row) }
{
    let triangle = triangle_at(points, row);
    match operator {
        Some(frame) => carry(frame, &triangle),
        None => triangle,
    }
}

/// Whether the corners of rows are in reach.
fn are_rows_near(points: &[Point], rows: &[Row], operator: &Option<Frame>, frame: &Frame) -> bool
    requires operator { IsOperator operator.now }
    requires near { All IsInReach (corners_of (triangles_at points.now rows.now)) }
    requires frame { Framed frame.now }
    ensures { OnTrue result (ArePlacedNear (Some frame.now)
        (map (placed_by operator.now) (triangles_at points.now rows.now))) }
{
    for row in rows {
        if !are_carried_near(frame, &own_triangle(points, operator, *row)) {
            return false;
        }
    }
    true
}

/// Whether the corners of a piece are in reach once they are placed. False where its rows or their points aren't there.
fn is_piece_near(stock: &Stock, piece: &Piece, frame: &Frame) -> bool
    requires sound { IsSoundStock stock.now }
    requires carried { IsCarried piece.now }
    requires frame { Framed frame.now }
    ensures { OnTrue result (ArePlacedNear (Some frame.now)
        (piece_triangles stock.now.points stock.now.sets piece.now)) }
{
    let Some(set) = stock.sets.get(piece.set) else {
        return false;
    };
    match stock.points.get(set.list) {
        Some(points) => are_rows_near(
            points.as_slice(),
            set.rows.as_slice(),
            &piece.operator,
            frame,
        ),
        None => false,
    }
}

/// The pieces of a range.
fn pieces_of(stock: &Stock, range: Range) -> &[Piece]
    requires { IsRangeIn stock.now range }
    ensures { result.now ≡ pieces_in stock.now.pieces.items range }
{
    &stock.pieces[range.from..range.to]
}

/// Whether all corners of these pieces are in reach once they are placed.
fn are_pieces_near(stock: &Stock, range: Range, frame: &Frame) -> bool
    requires sound { IsSoundStock stock.now }
    requires there { IsRangeIn stock.now range }
    requires frame { Framed frame.now }
    ensures { OnTrue result (ArePlacedNear (Some frame.now) (range_triangles stock.now range)) }
{
    for piece in pieces_of(stock, range) {
        if !is_piece_near(stock, piece, frame) {
            return false;
        }
    }
    true
}

/// Whether none of these pieces is mapped.
fn are_unmapped(stock: &Stock, range: Range) -> bool
    requires there { IsRangeIn stock.now range }
    ensures { OnTrue result (All IsUnmapped (pieces_in stock.now.pieces.items range)) }
{
    for piece in pieces_of(stock, range) {
        if piece.operator.is_some() {
            return false;
        }
    }
    true
}

/// Whether all corners are in reach. Points of lists are, so where nothing carries them they aren't looked at.
pub fn are_near(stock: &Stock, range: Range, frame: Option<Frame>) -> bool
    requires sound { IsSoundStock stock.now }
    requires there { IsRangeIn stock.now range }
    requires framed { IfSome frame Framed }
    ensures { OnTrue result (ArePlacedNear frame (range_triangles stock.now range)) }
{
    match frame {
        Some(frame) => are_pieces_near(stock, range, &frame),
        None => { are_unmapped(stock, range) || are_pieces_near(stock, range, &Frame::identity()) }
    }
}

/// The point carried by a frame, which is in reach.
fn place(frame: &Frame, point: Point) -> Point
    requires frame { Framed frame.now }
    requires near { IsInReach (carried frame.now point) }
    ensures { result ≡ carried frame.now point }
{
    match frame.place(point) {
        Some(placed) => placed,
        None => point,
    }
}

/// The triangle in the building.
fn placed(frame: &Option<Frame>, triangle: Triangle) -> Triangle
    requires framed { IfSome frame.now Framed }
    requires near { ArePlacedNear frame.now (triangle ∷ []) }
    ensures { result ≡ placed_by frame.now triangle }
{
    match frame {
        Some(frame) => Triangle {
            a: place(frame, triangle.a),
            b: place(frame, triangle.b),
            c: place(frame, triangle.c),
        },
        None => triangle,
    }
}

/// Adds the triangles of rows in the building.
fn add_rows(
    points: &[Point],
    rows: &[Row],
    operator: &Option<Frame>,
    frame: &Option<Frame>,
    out: &mut Vec<Triangle>,
) -> Result<(), AllocError>
    requires operator { IsOperator operator.now }
    requires near { All IsInReach (corners_of (triangles_at points.now rows.now)) }
    requires framed { IfSome frame.now Framed }
    requires placed { ArePlacedNear frame.now
        (map (placed_by operator.now) (triangles_at points.now rows.now)) }
    ensures { OnOk result (out.new.items ≡ out.old.items
        ++ map (placed_by frame.now) (map (placed_by operator.now) (triangles_at points.now rows.now))) }
{
    for row in rows {
        out.push(placed(frame, own_triangle(points, operator, *row)))?;
    }
    Ok(())
}

/// Adds the triangles of a piece in the building.
fn add_piece(
    stock: &Stock,
    piece: &Piece,
    frame: &Option<Frame>,
    out: &mut Vec<Triangle>,
) -> Result<(), AllocError>
    requires sound { IsSoundStock stock.now }
    requires carried { IsCarried piece.now }
    requires framed { IfSome frame.now Framed }
    requires placed { ArePlacedNear frame.now (piece_triangles stock.now.points stock.now.sets piece.now) }
    ensures { OnOk result (out.new.items ≡ out.old.items
        ++ map (placed_by frame.now) (piece_triangles stock.now.points stock.now.sets piece.now)) }
{
    let Some(set) = stock.sets.get(piece.set) else {
        return Ok(());
    };
    match stock.points.get(set.list) {
        Some(points) => add_rows(
            points.as_slice(),
            set.rows.as_slice(),
            &piece.operator,
            frame,
            out,
        ),
        None => Ok(()),
    }
}

/// The surface of a sketch.
fn surface_of(
    alloc: Global,
    stock: &Stock,
    range: Range,
    frame: &Option<Frame>,
) -> Result<Vec<Triangle>, AllocError>
    requires sound { IsSoundStock stock.now }
    requires there { IsRangeIn stock.now range }
    requires framed { IfSome frame.now Framed }
    requires near { ArePlacedNear frame.now (range_triangles stock.now range) }
    ensures { IfOk result (λ made. made.items ≡ map (placed_by frame.now) (range_triangles stock.now range)) }
{
    let mut made = Vec::with_capacity(alloc, range.count as usize)?;
    for piece in pieces_of(stock, range) {
        add_piece(stock, piece, frame, &mut made)?;
    }
    Ok(made)
}

/// The elements with their surfaces, each made in its place.
pub fn surfaced(alloc: Global, stock: &Stock, drawn: Drawn) -> Result<Vec<Element>, AllocError>
    requires sound { IsSoundStock stock.now }
    requires near { All (IsNearSketch stock.now) drawn.sketches }
    requires same { length drawn.elements.items ≡ length drawn.sketches }
    ensures { IfOk result (λ made.
        made.items ≡ elements_of stock.now drawn.elements.items drawn.sketches) }
{
    let Drawn {
        mut elements,
        sketches,
        classes: _classes,
    } = drawn;
    for at in 0..elements.len() {
        let sketch = sketches.get(at);
        let made = surface_of(alloc, stock, sketch.range, &sketch.frame)?;
        elements[at].triangles = Items::from_vec(made);
    }
    Ok(elements)
}
