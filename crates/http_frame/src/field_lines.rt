//! The field lines of a head, byte by byte, so that none is looked at twice.
ghost use Rattle.std.specs.Prelude.{◌≡◌};
ghost use Rattle.http_frame.specs.Scan.{step, spot_step, spot_run};
ghost use Rattle.http_frame.specs.Watched.{is_open};

use httparse::{is_header_name_token, is_header_value_token};

/// Where in the field lines the next byte stands.
#[derive(Clone, Copy, Debug, PartialEq, Eq)]
pub enum Place {
    /// At the front of a line.
    Start,
    Name,
    Value,
    /// After the CR of a field's line.
    Cr,
    /// After the CR of the empty line.
    Last,
    /// After the empty line.
    Done,
    /// After a byte that no field line has there.
    Dead,
}

/// Where the byte after this one stands.
pub fn place_behind(place: Place, b: u8) -> Place
    ensures { result ≡ step place b }
{
    match place {
        Place::Start => {
            if b == b'\r' {
                Place::Last
            } else if b == b'\n' {
                Place::Done
            } else if is_header_name_token(b) {
                Place::Name
            } else {
                Place::Dead
            }
        }
        Place::Name => {
            if b == b':' {
                Place::Value
            } else if is_header_name_token(b) {
                Place::Name
            } else {
                Place::Dead
            }
        }
        Place::Value => {
            if b == b'\r' {
                Place::Cr
            } else if b == b'\n' {
                Place::Start
            } else if is_header_value_token(b) {
                Place::Value
            } else {
                Place::Dead
            }
        }
        Place::Cr => {
            if b == b'\n' {
                Place::Start
            } else {
                Place::Dead
            }
        }
        Place::Last => { if b == b'\n' { Place::Done } else { Place::Dead } }
        Place::Done => Place::Done,
        Place::Dead => Place::Dead,
    }
}

/// Where in a request the next byte of its head stands.
#[derive(Clone, Copy, Debug, PartialEq, Eq)]
pub enum Spot {
    /// At the front of a line; only empty lines came.
    Before,
    /// After a CR there.
    BeforeCr,
    /// In the first line.
    Line,
    /// After the first line.
    Fields(Place),
}

fn spot_behind(spot: Spot, b: u8) -> Spot
    ensures { result ≡ spot_step spot b }
{
    match spot {
        Spot::Before => {
            if b == b'\r' {
                Spot::BeforeCr
            } else if b == b'\n' {
                Spot::Before
            } else {
                Spot::Line
            }
        }
        Spot::BeforeCr => { if b == b'\n' { Spot::Before } else { Spot::Line } }
        Spot::Line => {
            if b == b'\n' {
                Spot::Fields(Place::Start)
            } else {
                Spot::Line
            }
        }
        Spot::Fields(place) => Spot::Fields(place_behind(place, b)),
    }
}

/// Whether neither the end of the head nor a byte that no field line has there was met.
pub fn is_open(spot: Spot) -> bool
    ensures { result ≡ is_open spot }
{
    match spot {
        Spot::Before => true,
        Spot::BeforeCr => true,
        Spot::Line => true,
        Spot::Fields(Place::Done) => false,
        Spot::Fields(Place::Dead) => false,
        Spot::Fields(_) => true,
    }
}

/// Goes on from a spot over these bytes. It looks at none after the head's end, or after a byte that ends all hope:
/// what follows leads nowhere else.
pub fn walk_on(spot: Spot, bytes: &[u8]) -> Spot
    ensures { result ≡ spot_run spot bytes.now }
{
    let mut here = spot;
    for b in bytes {
        here = spot_behind(here, *b);
        if !is_open(here) {
            return here;
        }
    }
    here
}
