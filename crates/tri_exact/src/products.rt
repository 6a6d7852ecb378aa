//! Products of vectors, without overflow.
// Products of vectors. Those of two vectors of the grid fit 64 bits, and those above them fit 128.
ghost use Rattle.std.specs.Prelude.{ℕ, ◌≡◌, ◌≤◌, ℤ, pos, ◌-ℤ◌, ◌*ℤ◌, ◌≤ℤ◌, ◌↔◌, unsigned_abs, IsTrue};
ghost use Rattle.tri_exact.specs.ProductLimits.{product_limit, height_limit, square_limit, minor_limit, distance_limit};
ghost use Rattle.exact_arith.specs.Space.{dot_of, cross_of, minus};
ghost use Rattle.tri_exact.specs.GridVectors.{at, wide, straight, IsPoint, IsCross};
ghost use Rattle.tri_exact.specs.Foot.{orient_of};

use crate::{Normal, V3, W3};

/// The scalar product.
pub fn dot(a: V3, b: V3) -> i128
    ensures value { result ≡ dot_of (at a) (at b) }
    ensures small { unsigned_abs result ≤ product_limit }
{
    scalar(a, b) as i128
}

/// The vector product.
pub fn cross(a: V3, b: V3) -> W3
    ensures value { wide result ≡ cross_of (at a) (at b) }
    ensures small { IsCross result }
{
    let normal = normal_to(a, b);
    W3 {
        x: normal.x as i128,
        y: normal.y as i128,
        z: normal.z as i128,
    }
}

/// Six times the volume of the tetrahedron abcd: above zero where d lies on that side of abc from which the
/// corners turn to the left, zero where the four lie on one plane.
#[inline(always)]
pub fn orient(a: V3, b: V3, c: V3, d: V3) -> i128
    requires a_in { IsPoint a }
    requires b_in { IsPoint b }
    requires c_in { IsPoint c }
    requires d_in { IsPoint d }
    ensures value { result ≡ orient_of (at a) (at b) (at c) (at d) }
    ensures small { unsigned_abs result ≤ height_limit }
{
    let side = difference(b, a);
    let other = difference(c, a);
    let way = difference(d, a);
    height(way, normal_to(side, other))
}

/// The way from b to a.
#[inline(always)]
pub fn difference(a: V3, b: V3) -> V3
    requires a_in { IsPoint a }
    requires b_in { IsPoint b }
    ensures { at result ≡ minus (at a) (at b) }
{
    V3 {
        x: a.x - b.x,
        y: a.y - b.y,
        z: a.z - b.z,
    }
}

/// The scalar product, in 64 bits.
#[inline(always)]
pub fn scalar(a: V3, b: V3) -> i64
    ensures value { result ≡ dot_of (at a) (at b) }
    ensures small { unsigned_abs result ≤ product_limit }
{
    a.x * b.x + a.y * b.y + a.z * b.z
}

/// The vector product, in 64 bits.
#[inline(always)]
pub fn normal_to(a: V3, b: V3) -> Normal
    ensures { straight result ≡ cross_of (at a) (at b) }
{
    Normal {
        x: a.y * b.z - a.z * b.y,
        y: a.z * b.x - a.x * b.z,
        z: a.x * b.y - a.y * b.x,
    }
}

/// The square of a vector product.
#[inline(always)]
pub fn square(n: Normal) -> i128
    ensures value { result ≡ dot_of (straight n) (straight n) }
    ensures small { unsigned_abs result ≤ square_limit }
{
    let (x, y, z) = (n.x as i128, n.y as i128, n.z as i128);
    x * x + y * y + z * z
}

/// The scalar product of a vector and a vector product: the vector's height over the plane of the two, times
/// the length of their product.
#[inline(always)]
pub fn height(v: V3, n: Normal) -> i128
    ensures value { result ≡ dot_of (at v) (straight n) }
    ensures small { unsigned_abs result ≤ height_limit }
{
    v.x as i128 * n.x as i128 + v.y as i128 * n.y as i128 + v.z as i128 * n.z as i128
}

/// A difference of two products of scalar products.
#[inline(always)]
pub fn minor(a: i64, b: i64, c: i64, d: i64) -> i128
    requires a_in { unsigned_abs a ≤ product_limit }
    requires b_in { unsigned_abs b ≤ product_limit }
    requires c_in { unsigned_abs c ≤ product_limit }
    requires d_in { unsigned_abs d ≤ product_limit }
    ensures value { result ≡ a *ℤ b -ℤ c *ℤ d }
    ensures small { unsigned_abs result ≤ minor_limit }
{
    a as i128 * b as i128 - c as i128 * d as i128
}

/// 2^63: a height of this size or more has a square of 2^126 or more, which is above each square that a
/// distance within 10,000 comes to, so it is not low and is not squared.
const TALL: i128 = 9223372036854775808;

const DEEP: i128 = -9223372036854775808;

/// Whether a height, over the root of a square, is at most d.
#[inline(always)]
pub fn is_low(height: i128, square: i128, d: u32) -> bool
    requires height_in { unsigned_abs height ≤ height_limit }
    requires square_in { unsigned_abs square ≤ square_limit }
    requires d_in { d ≤ distance_limit }
    ensures { IsTrue result ↔ (height *ℤ height) ≤ℤ (pos d *ℤ pos d *ℤ square) }
{
    if height >= TALL {
        return false;
    }
    if height <= DEEP {
        return false;
    }
    height * height <= d as i128 * d as i128 * square
}
