//! Which bridges need no second try: for each corner of the current list how many of the loops that are left, from the first on, are known
//! to have no free bridge from it.
ghost use Rattle.std.specs.Prelude.{◌≡◌, ◌<◌, ℕ, IfOk, slice_index_or};
ghost use Rattle.std.specs.Bool.{OnTrue};
ghost use Rattle.void_bridge.specs.inner.Tried.{WasTried, WasTriedFrom, WereTried};

use std::alloc::{AllocError, Global};

/// The number at an index; 0 beyond the last.
#[inline(always)]
fn count_at(tried: &[usize], i: usize) -> usize
    ensures { result ≡ slice_index_or tried.now i 0 }
{
    if i < tried.len() { tried[i] } else { 0 }
}

/// Whether the k-th loop is known to have no free bridge from the i-th corner; a `false` says nothing.
#[inline(always)]
pub fn is_tried(tried: &[usize], i: usize, k: usize) -> bool
    ensures { OnTrue result (k < slice_index_or tried.now i 0) }
{
    k < count_at(tried, i)
}

/// The number once a loop is taken out, and all before it were tried.
fn count_without(count: usize, taken: usize) -> usize
    ensures { (k : ℕ) → k < result → WasTried count taken k }
{
    if count > taken { count - 1 } else { taken }
}

/// .. of the m-th corner of a list in which so many corners were put in behind one: 0 for those, and for that one before and behind them.
fn count_of(tried: &[usize], from: usize, more: usize, taken: usize, m: usize) -> usize
    ensures { (k : ℕ) → k < result → WasTriedFrom tried.now from more taken m k }
{
    if m < from {
        return count_without(count_at(tried, m), taken);
    }
    if m - from <= more {
        return 0;
    }
    count_without(count_at(tried, m - more), taken)
}

/// The numbers of so many corners of that list. None are kept if none were before and the first loop is taken out: all would be 0.
pub fn counts_after(
    alloc: Global,
    tried: &[usize],
    count: usize,
    from: usize,
    more: usize,
    taken: usize,
) -> Result<Vec<usize>, AllocError>
    ensures { IfOk result (λ made. WereTried tried.now from more taken made.items) }
{
    if taken == 0 && tried.is_empty() {
        return Ok(Vec::new(alloc));
    }
    let mut made = Vec::with_capacity(alloc, count)?;
    for m in 0..count {
        made.push(count_of(tried, from, more, taken, m))?;
    }
    Ok(made)
}
