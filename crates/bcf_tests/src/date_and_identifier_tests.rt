//! Dates and identifiers as texts, against those written by hand.
use bcf_json::{date_out, identifier_out};
use bim_model::Moment;
use std::alloc::{AllocError, Global};
use std::process::Abort;
use std::test::Fail;

#[test]
fn dates_and_identifiers_are_written(rt: HostRuntime) -> Result<(), Fail> {
    let alloc = rt.alloc();
    let dates = [
        (0, "1970-01-01T00:00:00Z"),
        (951_782_400, "2000-02-29T00:00:00Z"),
        (1_714_564_799, "2024-05-01T11:59:59Z"),
        (1_714_564_800, "2024-05-01T12:00:00Z"),
        (253_402_207_200, "9999-12-30T22:00:00Z"),
    ];
    for (moment, wanted) in dates {
        try_date(&rt, alloc, Moment::new(moment), wanted)?;
    }
    let identifier = identifier_out(alloc, 8, 0xabcdef012345)?;
    assert_eq!(rt; identifier.as_str(), "00000008-0000-8000-8000-abcdef012345");
    Ok(())
}

fn try_date(
    rt: &impl Abort,
    alloc: Global,
    moment: Moment,
    wanted: &str,
) -> Result<(), AllocError> {
    let date = date_out(alloc, moment.seconds())?;
    assert_eq!(rt; date.as_str(), wanted);
    Ok(())
}
