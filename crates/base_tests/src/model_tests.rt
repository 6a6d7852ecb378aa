//! Each public call once, with memory at hand.
ghost use Rattle.std.specs.Prelude.{◌≡◌, ◌<◌};

use bim_model::{
    Author, Bytes, ClassTest, Distance, Duplicate, Element, ElementKey, Extent, FARTHEST, Found,
    Guid, Items, Meeting, Model, ModelTest, Moment, NamedModel, Pair, Point, Rule, RuleKind, Rules,
    Shared, Snapshot, Steps, StoreyTest, Text, Triangle, extent_of, greatest_distance, id_of,
    rule_of, serial_of,
};
use std::alloc::{AllocError, Global};
use std::marker::Brand;
use std::process::Abort;
use std::sync::ledger::{Blank, Ledger};
use std::test::Fail;

#[test]
fn texts_and_bytes_are_kept(rt: HostRuntime) -> Result<(), Fail> {
    let cases = [
        "",
        "a",
        "just fourteen.",
        "exactly fifteen",
        "these are twenty-three.",
        "these are twenty-four...",
        "a name of forty bytes that lies outside.",
    ];
    for given in cases {
        try_text(&rt, rt.alloc(), given)?;
        try_bytes(&rt, rt.alloc(), given.as_bytes())?;
    }
    Ok(())
}

fn try_text(rt: &impl Abort, alloc: Global, given: &str) -> Result<(), AllocError> {
    let text = Text::of(alloc, given)?;
    assert_eq!(rt; text.as_str(), given);
    let second = text.copy(alloc)?;
    assert_eq!(rt; second.as_str(), given);
    Ok(())
}

fn try_bytes(rt: &impl Abort, alloc: Global, given: &[u8]) -> Result<(), AllocError> {
    let bytes = Bytes::of(alloc, given)?;
    assert_eq!(rt; bytes.as_slice(), given);
    let second = bytes.copy(alloc)?;
    assert_eq!(rt; second.as_slice(), given);
    let moved = Bytes::from_vec(alloc, given.to_vec(alloc)?)?;
    assert_eq!(rt; moved.as_slice(), given);
    Ok(())
}

#[test]
fn identifiers_are_read(rt: HostRuntime) {
    let cases = [
        ("2O2Fr$t4X7Zf8NOew3FLOH", true),
        ("0123456789_ABCXYZabcyz", true),
        ("2O2Fr$t4X7Zf8NOew3FLO", false),
        ("2O2Fr$t4X7Zf8NOew3FLOHH", false),
        ("2O2Fr-t4X7Zf8NOew3FLOH", false),
        ("", false),
    ];
    for (text, wanted) in cases {
        let guid = Guid::read(text.as_bytes());
        assert_eq!(rt; guid.is_some(), wanted, "at {text}");
    }
}

#[test]
fn objects_are_numbered(rt: HostRuntime) {
    let first = 0x00000001_0000_8000_8000_000000000001;
    assert_eq!(rt; id_of(1, 1), first);
    assert_eq!(rt; serial_of(1, first), Some(1));
    assert_eq!(rt; serial_of(2, first), None);
    let past = 0x00000001_0000_8000_8001_000000000000;
    assert_eq!(rt; serial_of(1, past - 1), Some(0xffff_ffff_ffff));
    assert_eq!(rt; serial_of(1, past), None);
}

#[test]
fn items_are_kept(rt: HostRuntime) -> Result<(), Fail> {
    let alloc = rt.alloc();
    let mut names = Items::new(alloc);
    for name in ["slab", "a beam of the upper storey"] {
        names.push(Text::of(alloc, name)?)?;
    }
    let shared = Shared::new(alloc, names.copy(alloc)?)?;
    let second = shared.share()?;
    assert_eq!(rt; second.get().len(), 2);
    let names = names.into_vec();
    for (name, copied) in names.iter().zip(second.get().as_slice()) {
        assert_eq!(rt; name.as_str(), copied.as_str());
    }
    assert_eq!(rt; Items::from_vec(names).len(), 2);
    Ok(())
}

#[test]
fn a_box_is_found(rt: HostRuntime) {
    let triangles = [
        triangle((0, 0, 0), (4, -1, 2), (3, 5, 1)),
        triangle((-7, 2, 2), (1, 1, 9), (2, 2, 2)),
    ];
    let wanted = Extent {
        low: point((-7, -1, 0)),
        high: point((4, 5, 9)),
    };
    assert_eq!(rt; extent_of(&triangles), wanted);
}

fn guid(text: &str) -> Result<Guid, Fail> {
    Ok(Guid::read(text.as_bytes()).ok_or("no identifier")?)
}

fn element(alloc: Global, guid: Guid, x: i32) -> Result<Element, AllocError> {
    let mut triangles = Items::new(alloc);
    triangles.push(triangle((x, 0, 0), (0, 7, 0), (0, 0, -3)))?;
    Ok(Element {
        guid,
        class: Text::of(alloc, "IFCBEAM")?,
        name: Text::of(alloc, "")?,
        storey: None,
        triangles,
    })
}

fn is_model(alloc: Global, first: Element, second: Element) -> Result<bool, AllocError> {
    let mut elements = Vec::new(alloc);
    elements.push(first)?;
    elements.push(second)?;
    Ok(Model::checked(alloc, elements)?.is_some())
}

fn is_model_at(alloc: Global, first: Guid, second: Guid, x: i32) -> Result<bool, AllocError> {
    let beam = element(alloc, first, 4)?;
    let duct = element(alloc, second, x)?;
    is_model(alloc, beam, duct)
}

#[test]
fn models_are_checked(rt: HostRuntime) -> Result<(), Fail> {
    let beam = guid("0000000000000000000001")?;
    let duct = guid("0000000000000000000002")?;
    let alloc = rt.alloc();
    assert!(rt; is_model_at(alloc, beam, duct, FARTHEST)?);
    assert!(rt; !is_model_at(alloc, beam, beam, 5)?);
    assert!(rt; !is_model_at(alloc, beam, duct, FARTHEST + 1)?);
    Ok(())
}

fn one_element(alloc: Global, x: i32) -> Result<Model, Fail> {
    let mut elements = Vec::new(alloc);
    elements.push(element(alloc, guid("0000000000000000000001")?, x)?)?;
    Ok(Model::checked(alloc, elements)?.ok_or("no model")?)
}

#[test]
fn boxes_are_kept(rt: HostRuntime) -> Result<(), Fail> {
    let model = one_element(rt.alloc(), 5)?;
    let wanted = Extent {
        low: point((0, 0, -3)),
        high: point((5, 7, 0)),
    };
    assert_eq!(rt; model.extents(), [wanted].as_slice());
    assert_eq!(rt; model.triangle_count(), 1);
    Ok(())
}

fn named(alloc: Global, name: &str) -> Result<NamedModel, Fail> {
    let model = Shared::new(alloc, one_element(alloc, 1)?)?;
    Ok(NamedModel {
        name: Text::of(alloc, name)?,
        model,
    })
}

fn one_model(alloc: Global) -> Result<Snapshot, Fail> {
    let empty = Snapshot::new(alloc, Shared::new(alloc, Rules::new(alloc))?);
    Ok(empty.with_model(alloc, named(alloc, "m")?)?)
}

#[test]
fn versions_are_made(rt: HostRuntime) -> Result<(), Fail> {
    let alloc = rt.alloc();
    let version = one_model(alloc)?;
    assert_eq!(rt; version.models().len(), 1);
    let fewer = version.without_model(alloc, "m")?;
    assert_eq!(rt; fewer.models().len(), 0);
    Ok(())
}

#[test]
fn rules_are_changed(rt: HostRuntime) -> Result<(), Fail> {
    let alloc = rt.alloc();
    let empty = Snapshot::new(alloc, Shared::new(alloc, Rules::new(alloc))?);
    let ruled = empty.with_rules(alloc, Shared::new(alloc, one_rule(alloc)?)?)?;
    assert_eq!(rt; ruled.rules().list().len(), 1);
    Ok(())
}

fn one_rule(alloc: Global) -> Result<Rules, AllocError> {
    let mut list = Vec::new(alloc);
    list.push(Rule {
        a: ClassTest::Any,
        b: ClassTest::Any,
        storey: StoreyTest::Any,
        level: None,
        models: ModelTest::Other,
        kind: RuleKind::Clash {
            distance: Distance::new(7),
        },
    })?;
    Ok(Rules::from_vec(list))
}

#[test]
fn a_rule_is_found(rt: HostRuntime) -> Result<(), Fail> {
    let alloc = rt.alloc();
    let rules = one_rule(alloc)?;
    let a = element(alloc, guid("0000000000000000000001")?, 1)?;
    let b = element(alloc, guid("0000000000000000000002")?, 1)?;
    let wanted = Found {
        rule: 0,
        meeting: Meeting::Within,
        distance: Distance::new(7),
    };
    assert_eq!(rt; rule_of(&rules, &a, &b, false), Some(wanted));
    assert_eq!(rt; rule_of(&rules, &a, &b, true), None);
    assert_eq!(rt; greatest_distance(&rules).millimetres(), 7);
    Ok(())
}

fn key(alloc: Global, model: &str, guid: Guid) -> Result<ElementKey, AllocError> {
    Ok(ElementKey {
        model: Text::of(alloc, model)?,
        guid,
    })
}

fn pair(alloc: Global, a: &ElementKey, b: &ElementKey) -> Result<Pair, AllocError> {
    Ok(Pair {
        a: a.copy(alloc)?,
        b: b.copy(alloc)?,
        rule: 0,
    })
}

#[test]
fn keys_and_pairs_are_ordered(rt: HostRuntime) -> Result<(), Fail> {
    let alloc = rt.alloc();
    let beam = guid("0000000000000000000001")?;
    let duct = guid("0000000000000000000002")?;
    let a = key(alloc, "a", duct)?;
    let b = key(alloc, "b", beam)?;
    assert!(rt; a.is_below(&b));
    let one = pair(alloc, &a, &b)?;
    assert!(rt; !one.is_before(&one.copy(alloc)?));
    Ok(())
}

#[test]
fn authors_are_copied(rt: HostRuntime) -> Result<(), Fail> {
    let alloc = rt.alloc();
    let author = Author {
        user: Text::of(alloc, "anna")?,
        moment: Moment::new(1_700_000_000),
    };
    let Author { user, moment } = author.copy(alloc)?;
    assert_eq!(rt; user.as_str(), "anna");
    assert_eq!(rt; moment.seconds(), 1_700_000_000);
    Ok(())
}

#[test]
fn steps_are_counted(rt: HostRuntime) {
    count_two_steps::<Brand>(Blank::new(1));
    assert_eq!(rt; size_of::<Steps<Brand>>(), 0);
}

fn count_two_steps<L: Ledger>(blank: Blank)
    requires name { blank.name ≡ L.name }
    requires parts { blank.parts ≡ L.parts }
    requires some { 0 < blank.parts }
{
    let mut steps = Steps::<L>::new(blank);
    steps.tick();
    steps.tick();
}

fn triangle(a: (i32, i32, i32), b: (i32, i32, i32), c: (i32, i32, i32)) -> Triangle {
    Triangle {
        a: point(a),
        b: point(b),
        c: point(c),
    }
}

fn point((x, y, z): (i32, i32, i32)) -> Point {
    Point { x, y, z }
}
