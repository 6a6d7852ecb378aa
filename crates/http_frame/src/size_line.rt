//! The line before a chunk, byte by byte.
ghost use Rattle.std.specs.Prelude.{◌≡◌, ℕ, List};
ghost use Rattle.http_frame.specs.ChunkSizes.{size_step, size_run};

/// Where in the line before a chunk the next byte stands.
#[derive(Clone, Copy, Debug, PartialEq, Eq)]
pub enum SizeSpot {
    /// After so many digits.
    Digits(usize),
    /// After so many bytes of the extension.
    Extension(usize),
    Cr,
    /// After the line.
    Whole,
    /// After a byte that no such line has there.
    Wrong,
}

/// Where one stands in the line after a byte.
pub fn size_spot_behind(spot: SizeSpot, b: u8) -> SizeSpot
    ensures { result ≡ size_step spot b }
{
    match spot {
        SizeSpot::Digits(count) => {
            if b.is_ascii_hexdigit() {
                if count < 8 {
                    SizeSpot::Digits(count + 1)
                } else {
                    SizeSpot::Wrong
                }
            } else if count == 0 {
                SizeSpot::Wrong
            } else if b == b';' {
                SizeSpot::Extension(0)
            } else if b == b'\r' {
                SizeSpot::Cr
            } else {
                SizeSpot::Wrong
            }
        }
        SizeSpot::Extension(count) => {
            if b == b'\r' {
                SizeSpot::Cr
            } else if b == b'\n' {
                SizeSpot::Wrong
            } else if count < 256 {
                SizeSpot::Extension(count + 1)
            } else {
                SizeSpot::Wrong
            }
        }
        SizeSpot::Cr => {
            if b == b'\n' {
                SizeSpot::Whole
            } else {
                SizeSpot::Wrong
            }
        }
        SizeSpot::Whole => SizeSpot::Whole,
        SizeSpot::Wrong => SizeSpot::Wrong,
    }
}
