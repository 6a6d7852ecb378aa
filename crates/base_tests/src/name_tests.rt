//! Names that have the form, and texts that lack it by a length or a character.

use bim_model::is_model_name;
use std::test::Fail;

#[test]
fn names_have_their_form(rt: HostRuntime) -> Result<(), Fail> {
    let longest = "m123456789m123456789m123456789m123456789m123456789m123456789m123";
    for good in ["a", "Z", "0", "_", ".", "-", "arch_2.0-b", longest] {
        assert!(rt; is_model_name(good.as_bytes()));
    }
    let longer = "m123456789m123456789m123456789m123456789m123456789m123456789m1234";
    for bad in [
        "", " ", "a b", "a/b", "a=b", "@", "[", "`", "{", ":", longer,
    ] {
        assert!(rt; !is_model_name(bad.as_bytes()));
    }
    assert!(rt; !is_model_name(b"\xc3\xa9"));
    Ok(())
}
