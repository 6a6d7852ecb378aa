//! Chains of placements and their frames, with expected values from hand work.
use crate::sample_axes::axis;
use crate::sample_files::exchange_of;
use bim_model::{BuildError, Mode, Point, UploadFault};
use ifc_units::Scale;
use p21_reader::Exchange;
use placement::{Chains, Frame, Frames, Offset, axis_frame, location_of};
use std::alloc::{AllocError, Global};
use std::process::Abort;
use std::test::Fail;

/// Placements, those that are named, and the order, or the one whose chain never ends.
static CHAINS: [(&str, &[u64], &[u64], Option<u64>); 10] = [
    ("", &[], &[], None),
    ("#9=IFCLOCALPLACEMENT($,#10);", &[9, 9], &[9], None),
    ("#9=IFCLOCALPLACEMENT(#9,#10);", &[9], &[], Some(9)),
    // nobody names the loop
    (
        "#8=IFCLOCALPLACEMENT(*,#10);#9=IFCLOCALPLACEMENT(#9,#10);",
        &[8],
        &[8],
        None,
    ),
    (
        "#1=IFCLOCALPLACEMENT(#2,#10);#2=IFCLOCALPLACEMENT(#3,#10);#3=IFCLOCALPLACEMENT($,#10);",
        &[2, 1, 2],
        &[3, 2, 1],
        None,
    ),
    (
        "#1=IFCLOCALPLACEMENT($,#10);#2=IFCLOCALPLACEMENT(#1,#10);#3=IFCLOCALPLACEMENT(#1,#10);",
        &[3, 2],
        &[1, 2, 3],
        None,
    ),
    // what leads to a loop never ends either
    (
        "#1=IFCLOCALPLACEMENT(#2,#10);#2=IFCLOCALPLACEMENT(#3,#10);#3=IFCLOCALPLACEMENT(#2,#10);",
        &[3, 1],
        &[],
        Some(1),
    ),
    (
        "#1=IFCLOCALPLACEMENT($,#10);#2=IFCLOCALPLACEMENT(#2,#10);#3=IFCLOCALPLACEMENT(#2,#10);",
        &[3, 1],
        &[],
        Some(3),
    ),
    // an instance that isn't there
    ("#1=IFCLOCALPLACEMENT(#7,#10);", &[1], &[], Some(1)),
    // no reference
    ("#1=IFCLOCALPLACEMENT(7,#10);", &[1], &[], Some(1)),
];

/// The chains of the named placements have this order, or the fault of this one.
fn assert_chains(
    rt: &impl Abort,
    alloc: Global,
    exchange: &Exchange,
    named: &[u64],
    ids: &[u64],
    looped: Option<u64>,
) {
    match Chains::of(alloc, exchange, named) {
        Ok(chains) => {
            assert!(rt; looped.is_none());
            assert_eq!(rt; chains.ids(), ids);
            drop(chains);
        }
        Err(BuildError::Fault(UploadFault::PlacementLoop { id })) => assert_eq!(rt;
            Some(id),
            looped
        ),
        Err(_) => assert!(rt; false, "another end"),
    }
}

#[test]
fn chains_are_ordered(rt: HostRuntime) -> Result<(), Fail> {
    for (data, named, ids, looped) in CHAINS.iter() {
        let exchange = exchange_of(rt.alloc(), &[*data])?;
        assert_chains(&rt, rt.alloc(), &exchange, named, ids, *looped);
        drop(exchange);
    }
    Ok(())
}

/// A placement in the one of the next number.
fn push_link(alloc: Global, text: &mut String, id: u64) -> Result<(), AllocError> {
    let parent = id.wrapping_add(1);
    let line = format!(in alloc; "#{id}=IFCLOCALPLACEMENT(#{parent},#20001);")?;
    let pushed = text.push_str(line.as_str());
    drop(line);
    pushed
}

/// Placements from 1 to before the last number, each in the next one, and each moved by one along x.
fn chain(alloc: Global, last: u64) -> Result<String, AllocError> {
    let mut text = String::new(alloc);
    for id in 1..last {
        push_link(alloc, &mut text, id)?;
    }
    Ok(text)
}

/// The same with the last placement, as it is spelled.
fn chained(alloc: Global, last: u64, spelled: &str) -> Result<Exchange, BuildError> {
    let text = chain(alloc, last)?;
    let directions = "#20001=IFCAXIS2PLACEMENT3D(#20002,$,$);#20002=IFCCARTESIANPOINT((1.,0.,0.));";
    let exchange = exchange_of(alloc, &[text.as_str(), directions, spelled]);
    drop(text);
    exchange
}

/// A loop of a hundred, to which two hundred lead.
#[test]
fn a_long_loop_is_found(rt: HostRuntime) -> Result<(), Fail> {
    let exchange = chained(rt.alloc(), 300, "#300=IFCLOCALPLACEMENT(#201,#20001);")?;
    assert_chains(&rt, rt.alloc(), &exchange, &[250, 201], &[], Some(201));
    assert_chains(&rt, rt.alloc(), &exchange, &[250, 7], &[], Some(7));
    drop(exchange);
    Ok(())
}

const MILLIMETRES: Scale = Scale {
    factor: 1,
    power: 0,
};

const METRES: Scale = Scale {
    factor: 1,
    power: 3,
};

/// The frames of the named placements and of those that they are in.
fn frames_of(
    alloc: Global,
    exchange: &Exchange,
    named: &[u64],
    mode: Mode,
) -> Result<Option<Frames>, BuildError> {
    let chains = Chains::of(alloc, exchange, named)?;
    let frames = Frames::of(alloc, exchange, &chains, MILLIMETRES, mode);
    drop(chains);
    Ok(frames?)
}

fn have_frames(
    alloc: Global,
    exchange: &Exchange,
    named: &[u64],
    mode: Mode,
) -> Result<bool, BuildError> {
    let frames = frames_of(alloc, exchange, named, mode)?;
    let found = frames.is_some();
    drop(frames);
    Ok(found)
}

/// A placement turned by a quarter and moved, one in it, and one whose location is between grid numbers.
static PLACED: &str =
    "#1=IFCLOCALPLACEMENT(#2,#11);#2=IFCLOCALPLACEMENT($,#12);#3=IFCLOCALPLACEMENT($,#13);#4=IFCLOCALPLACEMENT($,#14);\
    #11=IFCAXIS2PLACEMENT3D(#21,$,$);#12=IFCAXIS2PLACEMENT3D(#22,$,#31);#13=IFCAXIS2PLACEMENT3D(#23,$,$);#14=IFCAXIS2PLACEMENT3D(#21,#32,$);\
    #21=IFCCARTESIANPOINT((10.,20.,30.));#22=IFCCARTESIANPOINT((100.,200.,300.));#23=IFCCARTESIANPOINT((0.55,0.,0.));\
    #31=IFCDIRECTION((0.,1.,0.));#32=IFCDIRECTION((0.,1.,1.));";

/// A frame turned by a quarter.
fn turned(offset: Offset) -> Frame {
    Frame {
        x: axis(2),
        y: axis(-1),
        z: axis(3),
        offset,
    }
}

/// The frame of the turned placement.
fn outer() -> Frame {
    turned(Offset {
        x: 1_000,
        y: 2_000,
        z: 3_000,
    })
}

/// The frames of a placement and of the turned one that it is in.
fn assert_frames(rt: &impl Abort, frames: &Frames) {
    assert_eq!(rt; frames.get(2), Some(outer()));
    let inner = turned(Offset {
        x: 800,
        y: 2_100,
        z: 3_300,
    });
    assert_eq!(rt; frames.get(1), Some(inner));
    assert!(rt; frames.get(3).is_none());
}

fn assert_composed(rt: &impl Abort, alloc: Global, exchange: &Exchange) -> Result<(), BuildError> {
    match frames_of(alloc, exchange, &[1], Mode::Exact)? {
        Some(frames) => {
            assert_frames(rt, &frames);
            drop(frames);
        }
        None => assert!(rt; false, "no frames"),
    }
    Ok(())
}

/// A location between grid numbers, and one that is rounded; axes that don't lie along the grid's.
fn assert_lacking(rt: &impl Abort, alloc: Global, exchange: &Exchange) -> Result<(), BuildError> {
    assert!(rt; !have_frames(alloc, exchange, &[1, 3], Mode::Exact)?);
    assert!(rt; have_frames(alloc, exchange, &[1, 3], Mode::Snap)?);
    assert!(rt; !have_frames(alloc, exchange, &[1, 4], Mode::Exact)?);
    Ok(())
}

/// A placement's own frame, and its location.
fn assert_own(rt: &impl Abort, exchange: &Exchange) {
    let own = axis_frame(exchange, 12, MILLIMETRES, Mode::Exact);
    assert_eq!(rt; own, Some(outer()));
    let wanted = Point {
        x: 100_000,
        y: 200_000,
        z: 300_000,
    };
    assert_eq!(rt;
        location_of(exchange, 11, METRES, Mode::Exact),
        Some(wanted)
    );
}

#[test]
fn frames_are_composed(rt: HostRuntime) -> Result<(), Fail> {
    let exchange = exchange_of(rt.alloc(), &[PLACED])?;
    assert_own(&rt, &exchange);
    let composed = assert_composed(&rt, rt.alloc(), &exchange);
    let lacking = assert_lacking(&rt, rt.alloc(), &exchange);
    drop(exchange);
    composed?;
    Ok(lacking?)
}

/// The offset of a placement in chains of so many.
fn deep_offset(
    alloc: Global,
    exchange: &Exchange,
    count: usize,
) -> Result<Option<Offset>, BuildError> {
    let chains = Chains::of(alloc, exchange, &[1])?;
    let many = chains.ids().len() == count;
    drop(chains);
    if !many {
        return Ok(None);
    }
    match frames_of(alloc, exchange, &[1], Mode::Exact)? {
        Some(frames) => {
            let found = frames.get(1);
            drop(frames);
            Ok(offset_in(found))
        }
        None => Ok(None),
    }
}

fn offset_in(frame: Option<Frame>) -> Option<Offset> {
    Some(frame?.offset)
}

#[test]
fn deep_frames_are_composed(rt: HostRuntime) -> Result<(), Fail> {
    let exchange = chained(rt.alloc(), 1000, "#1000=IFCLOCALPLACEMENT($,#20001);")?;
    let found = deep_offset(rt.alloc(), &exchange, 1000);
    drop(exchange);
    let wanted = Offset {
        x: 10_000,
        y: 0,
        z: 0,
    };
    assert_eq!(rt; found?, Some(wanted));
    Ok(())
}
