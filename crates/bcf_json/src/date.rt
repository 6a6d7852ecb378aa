//! Moments as texts.
ghost use Rattle.std.specs.Prelude.{◌≡◌, ◌*◌, pos, IfOk};
ghost use Rattle.jiff.specs.Words.{civil_nanos};
ghost use Rattle.bim_model.specs.Moments.{IsMoment};
ghost use Rattle.bcf_json.specs.JsonTexts.{IsDateText};

use bim_model::Text;
use jiff::Timestamp;
use jiff::civil::DateTime;
use jiff::tz::Offset;
use std::alloc::{AllocError, Global};

fn civil_of(moment: u64) -> DateTime
    requires { IsMoment moment }
    ensures { civil_nanos result ≡ pos (moment * 1000000000) }
{
    let instant = Timestamp::from_second(moment as i64).unwrap();
    Offset::UTC.to_datetime(instant)
}

/// The date and time of a moment in UTC, as `2024-05-01T12:00:00Z` (RFC 3339). The moment is in seconds since 1970.
pub fn date_out(alloc: Global, moment: u64) -> Result<Text, AllocError>
    requires { IsMoment moment }
    ensures { IfOk result (IsDateText moment) }
{
    let civil = civil_of(moment);
    let text = format!(in alloc; "{civil}Z")?;
    Text::of(alloc, text.as_str())
}
