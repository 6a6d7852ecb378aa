//! Several lists of numbers, used again and again.
ghost use Rattle.std.specs.Prelude.{◌≡◌, ℕ, ◌+◌, ◌*◌, ◌/◌, ◌^◌, ◌<◌, ◌≤◌, ◌++◌, ◌∷◌, [], true, List, length, slice_index_or, slice_set, take, filter, IfOk, OnOk, All};
ghost use Rattle.bucket_grid.specs.Dealt.{covers, span_at, AreDealt, IsAmong};

use std::alloc::{AllocError, Global};
use std::marker::Model;

/// So many lists, one after the other, are a block.
const BLOCK: usize = 16;

/// The numbers from `first` to `last`: the cells of one axis that hold a box.
#[derive(Clone, Copy, Debug, PartialEq, Eq)]
pub struct Span {
    pub first: u32,
    pub last: u32,
}

/// Lists of numbers, which keep their room when they are emptied. A block of them is marked where one of its lists may
/// have a number, so that the others are passed over at once.
#[derive(Drop)]
pub struct Lists {
    lists: Vec<Vec<u32>>,
    marks: Vec<bool>,
}

impl Model for Lists {
    ghost use Rattle.std.specs.Prelude.{List, ℕ, map};
    ghost use Rattle.bucket_grid.specs.inner.ListBlocks.{AreMarked};

    ghost Value = { List (List ℕ) };

    ghost view = { λ l. map (λ v. v.items) l.lists.items };

    ghost invariant = { λ l. AreMarked (map (λ v. v.items) l.lists.items) l.marks.items };
}

impl Lists {
    /// So many empty lists.
    pub fn of(alloc: Global, count: usize) -> Result<Lists, AllocError>
        ensures { IfOk result (λ made. length made ≡ count) }
    {
        let mut lists = Vec::with_capacity(alloc, count)?;
        for _ in 0..count {
            lists.push(Vec::new(alloc))?;
        }
        let marks = all_marked(alloc, count / BLOCK + 1)?;
        Ok(Lists { lists, marks })
    }

    /// How many lists there are.
    pub fn count(&self) -> usize
        ensures { result ≡ length self.now }
    {
        self.lists.len()
    }

    /// Empties each list.
    pub fn clear(&mut self)
        ensures count { length self.new ≡ length self.old }
        ensures empty { (k : ℕ) → slice_index_or self.new k [] ≡ [] }
    {
        let mut place = 0;
        while place < self.lists.len() {
            if self.marks[place / BLOCK] {
                self.lists[place].clear();
                place += 1;
            } else {
                place = block_end(place);
            }
        }
        for block in 0..self.marks.len() {
            self.marks[block] = false;
        }
    }

    /// Adds a number at the end of a list.
    pub fn add(&mut self, list: usize, number: u32) -> Result<(), AllocError>
        requires { list < length self.old }
        ensures { OnOk result (self.new
            ≡ slice_set self.old list (slice_index_or self.old list [] ++ number ∷ [])) }
    {
        self.marks[list / BLOCK] = true;
        self.lists[list].push(number)?;
        Ok(())
    }

    /// A list, lent.
    pub fn get(&self, list: usize) -> &[u32]
        requires { list < length self.now }
        ensures { result.now ≡ slice_index_or self.now list [] }
    {
        self.lists[list].as_slice()
    }

    /// The place from `from` on before which all lists are empty: that of the next list of a marked block, or the
    /// number of lists.
    pub fn next(&self, from: usize) -> usize
        requires { from ≤ length self.now }
        ensures from { from ≤ result }
        ensures end { result ≤ length self.now }
        ensures empty { (k : ℕ) → from ≤ k → k < result → slice_index_or self.now k [] ≡ [] }
    {
        let mut place = from;
        while place < self.lists.len() {
            if self.marks[place / BLOCK] {
                return place;
            }
            place = block_end(place);
        }
        self.lists.len()
    }
}

// So many blocks, all marked.
fn all_marked(alloc: Global, count: usize) -> Result<Vec<bool>, AllocError>
    ensures count { IfOk result (λ made. length made.items ≡ count) }
    ensures marked { IfOk result (λ made. (b : ℕ) → slice_index_or made.items b true ≡ true) }
{
    let mut marks = Vec::with_capacity(alloc, count)?;
    for _ in 0..count {
        marks.push(true)?;
    }
    Ok(marks)
}

// The place after the block of a place.
fn block_end(place: usize) -> usize
    requires { place < 2 ^ 63 }
    ensures { result ≡ place / 16 * 16 + 16 }
{
    place / BLOCK * BLOCK + BLOCK
}

/// Deals the numbers: each into the lists of its span, in their order.
pub fn deal(lists: &mut Lists, numbers: &[u32], spans: &[Span]) -> Result<(), AllocError>
    requires { IsAmong spans.now numbers.now (length lists.old) }
    ensures { OnOk result (AreDealt spans.now numbers.now (length lists.old) lists.new) }
{
    lists.clear();
    for number in numbers {
        let number = *number;
        let span = spans[number as usize];
        for list in span.first..span.last + 1 {
            lists.add(list as usize, number)?;
        }
    }
    Ok(())
}
