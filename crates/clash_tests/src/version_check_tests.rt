//! A version of two elements that clash.
use crate::sample_pipes::two_pipes;
use bim_model::Shared;
use bucket_check::SetPair;
use clash_check::clashes_of;
use std::test::Fail;

#[test]
fn two_elements_clash(rt: HostRuntime) -> Result<(), Fail> {
    let alloc = rt.alloc();
    let Ok(found) = clashes_of(alloc, Shared::new(alloc, two_pipes(alloc)?)?) else {
        return Err(Fail::from("no clashes"));
    };
    let pair = SetPair {
        a: 0,
        b: 1,
        rule: 0,
    };
    assert_eq!(rt; found.pairs(), [pair].as_slice());
    Ok(())
}
