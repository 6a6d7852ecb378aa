//! A chunked body while its bytes come (RFC 9112, 7.1): what the chunks hold is joined in place.
ghost use Rattle.std.specs.Prelude.{◌≡◌, ◌≤◌, ◌<◌, ◌+◌, ◌==◌, length};
ghost use Rattle.std.specs.Char.{digit_value};
ghost use Rattle.http_frame.specs.Chunks.{value_step, size_turn, trailers_on, trailer_turn, chunk_step, data_left, is_over, IsOrdered, Advances};

use crate::field_lines::{Place, place_behind};
use crate::limits::{MOST_FIELDS, MOST_HEAD};
use crate::moves::move_down;
use crate::size_line::{SizeSpot, size_spot_behind};
use crate::types::FrameFault;

/// Where in a chunked body the next byte stands.
#[derive(Clone, Copy, Debug, PartialEq, Eq)]
pub enum Part {
    /// In the line before a chunk, whose digits write this number so far.
    Size(SizeSpot, u64),
    /// In a chunk that lacks so many bytes, or after one that lacks none.
    Data(usize),
    /// After the CR that follows a chunk.
    Lf,
    /// In the trailers, after so many fields (counted up to 65) and bytes.
    Trailers(Place, usize, usize),
}

/// What one byte does.
#[derive(Clone, Copy, Debug, PartialEq, Eq)]
pub enum ChunkStep {
    /// It leads there, where chunks of so many bytes together may follow.
    On(Part, usize),
    /// It is the last byte of the body.
    Whole,
    Fault(FrameFault),
}

/// How far a body was read.
#[derive(Clone, Copy, Debug, PartialEq, Eq)]
pub struct Chunks {
    pub part: Part,
    /// How many bytes further chunks may have together.
    pub room: usize,
    /// How many bytes the chunks have so far. They stand at the front of the buffer.
    pub filled: usize,
}

/// How a reading ends.
#[derive(Clone, Copy, Debug, PartialEq, Eq)]
pub enum ChunkEnd {
    More,
    Whole,
    Fault(FrameFault),
}

/// A reading of a buffer up to a place.
#[derive(Clone, Copy, Debug, PartialEq, Eq)]
pub struct Taken {
    pub chunks: Chunks,
    pub at: usize,
    pub end: ChunkEnd,
}

// One less than the most bytes of trailers.
const LAST_TRAILER: usize = MOST_HEAD - 1;

fn digit_value(b: u8) -> u64
    ensures { result ≡ digit_value b }
{
    if b < 48 {
        36
    } else if b < 58 {
        b as u64 - 48
    } else if b < 65 {
        36
    } else if b < 91 {
        b as u64 - 55
    } else if b < 97 {
        36
    } else if b < 123 {
        b as u64 - 87
    } else {
        36
    }
}

// The number that the digits write, with one byte more.
fn value_behind(spot: SizeSpot, value: u64, b: u8) -> u64
    ensures { result ≡ value_step spot value b }
{
    match spot {
        SizeSpot::Digits(_) => {
            if b.is_ascii_hexdigit() {
                value.saturating_mul(16).saturating_add(digit_value(b))
            } else {
                value
            }
        }
        SizeSpot::Extension(_) => value,
        SizeSpot::Cr => value,
        SizeSpot::Whole => value,
        SizeSpot::Wrong => value,
    }
}

fn chunk_of(value: u64, room: usize) -> ChunkStep
    ensures { result ≡ size_turn SizeSpot.Whole value room }
{
    if value == 0 {
        return ChunkStep::On(Part::Trailers(Place::Start, 0, 0), room);
    }
    if value > room as u64 {
        return ChunkStep::Fault(FrameFault::BodyTooLong);
    }
    ChunkStep::On(Part::Data(value as usize), room - value as usize)
}

fn size_turn(spot: SizeSpot, value: u64, room: usize) -> ChunkStep
    ensures { result ≡ size_turn spot value room }
{
    match spot {
        SizeSpot::Digits(_) => ChunkStep::On(Part::Size(spot, value), room),
        SizeSpot::Extension(_) => ChunkStep::On(Part::Size(spot, value), room),
        SizeSpot::Cr => ChunkStep::On(Part::Size(spot, value), room),
        SizeSpot::Whole => chunk_of(value, room),
        SizeSpot::Wrong => ChunkStep::Fault(FrameFault::BadChunk),
    }
}

fn trailers_on(place: Place, fields: usize, count: usize, room: usize) -> ChunkStep
    ensures { result ≡ trailers_on place fields count room }
{
    if count >= LAST_TRAILER {
        ChunkStep::Fault(FrameFault::HeadTooLong)
    } else {
        ChunkStep::On(Part::Trailers(place, fields, count + 1), room)
    }
}

fn trailer_turn(place: Place, fields: usize, count: usize, room: usize, is_lf: bool) -> ChunkStep
    ensures { result ≡ trailer_turn place fields count room is_lf }
{
    match place {
        Place::Start => trailers_on(place, fields.min(MOST_FIELDS) + 1, count, room),
        Place::Name => trailers_on(place, fields, count, room),
        Place::Value => trailers_on(place, fields, count, room),
        Place::Cr => trailers_on(place, fields, count, room),
        Place::Last => trailers_on(place, fields, count, room),
        Place::Done => {
            if fields > MOST_FIELDS {
                ChunkStep::Fault(FrameFault::HeadTooLong)
            } else {
                ChunkStep::Whole
            }
        }
        Place::Dead => {
            if is_lf {
                ChunkStep::Fault(FrameFault::BadChunk)
            } else {
                trailers_on(place, fields, count, room)
            }
        }
    }
}

// What a byte does that is none of a chunk's content.
fn step_behind(part: Part, room: usize, b: u8) -> ChunkStep
    ensures { result ≡ chunk_step part room b }
{
    match part {
        Part::Size(spot, value) => {
            size_turn(
                size_spot_behind(spot, b),
                value_behind(spot, value, b),
                room,
            )
        }
        Part::Data(_) => {
            if b == b'\r' {
                ChunkStep::On(Part::Lf, room)
            } else {
                ChunkStep::Fault(FrameFault::BadChunk)
            }
        }
        Part::Lf => {
            if b == b'\n' {
                ChunkStep::On(Part::Size(SizeSpot::Digits(0), 0), room)
            } else {
                ChunkStep::Fault(FrameFault::BadChunk)
            }
        }
        Part::Trailers(place, fields, count) => {
            trailer_turn(place_behind(place, b), fields, count, room, b == b'\n')
        }
    }
}

fn data_left(part: Part) -> usize
    ensures { result ≡ data_left part }
{
    match part {
        Part::Size(_, _) => 0,
        Part::Data(left) => left,
        Part::Lf => 0,
        Part::Trailers(_, _, _) => 0,
    }
}

fn is_over(end: ChunkEnd) -> bool
    ensures { result ≡ is_over end }
{
    match end {
        ChunkEnd::More => false,
        ChunkEnd::Whole => true,
        ChunkEnd::Fault(_) => true,
    }
}

// Takes the bytes of a chunk that have come, as many as it lacks.
fn take_data(bytes: &mut [u8], here: Taken, left: usize) -> Taken
    requires part { here.chunks.part ≡ Part.Data left }
    requires left { 0 < left }
    requires ordered { IsOrdered here (length bytes.old) }
    requires some { here.at < length bytes.old }
    requires end { here.end ≡ ChunkEnd.More }
    ensures len { length bytes.new ≡ length bytes.old }
    ensures ordered { IsOrdered result (length bytes.old) }
    ensures further { here.at < result.at }
    ensures advances { Advances bytes.old here bytes.new result }
{
    let count = left.min(bytes.len() - here.at);
    move_down(bytes, here.at, count, here.chunks.filled);
    Taken {
        chunks: Chunks {
            part: Part::Data(left - count),
            room: here.chunks.room,
            filled: here.chunks.filled + count,
        },
        at: here.at + count,
        end: ChunkEnd::More,
    }
}

// Takes one byte that is none of a chunk's content.
fn take_byte(bytes: &[u8], here: Taken) -> Taken
    requires left { data_left here.chunks.part ≡ 0 }
    requires ordered { IsOrdered here (length bytes.now) }
    requires some { here.at < length bytes.now }
    requires end { here.end ≡ ChunkEnd.More }
    ensures ordered { IsOrdered result (length bytes.now) }
    ensures further { here.at < result.at }
    ensures advances { Advances bytes.now here bytes.now result }
{
    let at = here.at + 1;
    let chunks = here.chunks;
    match step_behind(chunks.part, chunks.room, bytes[here.at]) {
        ChunkStep::On(part, room) => Taken {
            chunks: Chunks {
                part,
                room,
                filled: chunks.filled,
            },
            at,
            end: ChunkEnd::More,
        },
        ChunkStep::Whole => Taken {
            chunks,
            at,
            end: ChunkEnd::Whole,
        },
        ChunkStep::Fault(fault) => Taken {
            chunks,
            at,
            end: ChunkEnd::Fault(fault),
        },
    }
}

// Takes some bytes.
fn take_some(bytes: &mut [u8], here: Taken) -> Taken
    requires ordered { IsOrdered here (length bytes.old) }
    requires some { here.at < length bytes.old }
    requires end { here.end ≡ ChunkEnd.More }
    ensures len { length bytes.new ≡ length bytes.old }
    ensures ordered { IsOrdered result (length bytes.old) }
    ensures further { here.at < result.at }
    ensures advances { Advances bytes.old here bytes.new result }
{
    match here.chunks.part {
        Part::Data(left) => {
            if left > 0 {
                return take_data(bytes, here, left);
            }
            take_byte(bytes, here)
        }
        Part::Size(_, _) => take_byte(bytes, here),
        Part::Lf => take_byte(bytes, here),
        Part::Trailers(_, _, _) => take_byte(bytes, here),
    }
}

/// Reads on from a place, as far as the bytes go or up to the body's end.
pub fn read_chunks(bytes: &mut [u8], start: Taken) -> Taken
    requires ordered { IsOrdered start (length bytes.old) }
    requires end { start.end ≡ ChunkEnd.More }
    ensures len { length bytes.new ≡ length bytes.old }
    ensures ordered { IsOrdered result (length bytes.old) }
    ensures all { result.end ≡ ChunkEnd.More → length bytes.old ≤ result.at }
    ensures advances { Advances bytes.old start bytes.new result }
{
    let mut here = start;
    while here.at < bytes.len() {
        here = take_some(bytes, here);
        if is_over(here.end) {
            return here;
        }
    }
    here
}
