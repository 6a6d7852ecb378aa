//! Storeys of objects, and objects that have two ways up or none.
use crate::small_files::{exchange_in_parts, exchange_of};
use bim_model::{BuildError, UploadFault};
use p21_reader::Exchange;
use spatial_tree::tree;
use std::alloc::{AllocError, Global};
use std::process::Abort;
use std::test::Fail;

/// Instances, and the storey of an object.
static STOREYS: [(&[u8], u64, Option<u64>); 15] = [
    // a storey by containment
    (
        b"#8=A();#9=IFCBUILDINGSTOREY('3',$,'EG');#10=IFCRELCONTAINEDINSPATIALSTRUCTURE('4',$,$,$,(#8),#9);",
        8,
        Some(9),
    ),
    // by aggregation
    (
        b"#8=A();#9=IFCBUILDINGSTOREY('3',$,'EG');#10=IFCRELAGGREGATES('4',$,$,$,#9,(#8));",
        8,
        Some(9),
    ),
    // by both: the container stands before the whole
    (
        b"#8=A();#9=IFCBUILDINGSTOREY();#10=IFCBUILDINGSTOREY();#11=IFCRELAGGREGATES('4',$,$,$,#9,(#8));#12=IFCRELCONTAINEDINSPATIALSTRUCTURE('4',$,$,$,(#8),#10);",
        8,
        Some(10),
    ),
    // two steps up: a part of a content
    (
        b"#7=A();#8=A();#9=IFCBUILDINGSTOREY();#10=IFCRELAGGREGATES('4',$,$,$,#8,(#6,#7));#11=IFCRELCONTAINEDINSPATIALSTRUCTURE('4',$,$,$,(#8),#9);",
        7,
        Some(9),
    ),
    // the first storey, not a later one
    (
        b"#7=A();#8=IFCBUILDINGSTOREY();#9=IFCBUILDINGSTOREY();#10=IFCRELAGGREGATES('4',$,$,$,#9,(#8));#11=IFCRELCONTAINEDINSPATIALSTRUCTURE('4',$,$,$,(#7),#8);",
        7,
        Some(8),
    ),
    // a storey isn't its own one
    (
        b"#7=A();#8=IFCBUILDINGSTOREY();#11=IFCRELCONTAINEDINSPATIALSTRUCTURE('4',$,$,$,(#7),#8);",
        8,
        None,
    ),
    (
        b"#7=A();#8=IFCBUILDINGSTOREY();#9=IFCBUILDINGSTOREY();#10=IFCRELAGGREGATES('4',$,$,$,#9,(#8));#11=IFCRELCONTAINEDINSPATIALSTRUCTURE('4',$,$,$,(#7),#8);",
        8,
        Some(9),
    ),
    // a way that ends without a storey
    (
        b"#7=A();#8=IFCBUILDING();#10=IFCRELCONTAINEDINSPATIALSTRUCTURE('4',$,$,$,(#7),#8);#11=IFCBUILDINGSTOREY();",
        7,
        None,
    ),
    // no relation names it
    (b"#11=IFCBUILDINGSTOREY();", 7, None),
    (b"", 0, None),
    // the same container, and the same whole, twice
    (
        b"#7=A();#8=IFCBUILDINGSTOREY();#10=IFCRELCONTAINEDINSPATIALSTRUCTURE('4',$,$,$,(#7,#7),#8);#11=IFCRELCONTAINEDINSPATIALSTRUCTURE('4',$,$,$,(#7),#8);",
        7,
        Some(8),
    ),
    (
        b"#7=A();#8=IFCBUILDINGSTOREY();#10=IFCRELAGGREGATES('4',$,$,$,#8,(#7,#7));#11=IFCRELAGGREGATES('4',$,$,$,#8,(#7));",
        7,
        Some(8),
    ),
    // keywords in small letters
    (
        b"#7=A();#8=IfcBuildingStorey();#10=ifcrelaggregates('4',$,$,$,#8,(#7));",
        7,
        Some(8),
    ),
    // an empty list, and other relations
    (
        b"#7=A();#8=IFCBUILDINGSTOREY();#10=IFCRELAGGREGATES('4',$,$,$,#8,());#11=IFCRELDEFINESBYTYPE('4',$,$,$,(#7),#8);",
        7,
        None,
    ),
    // what two ways share
    (
        b"#1=IFCRELAGGREGATES('4',$,$,$,#5,(#6,#4));#2=IFCRELAGGREGATES('4',$,$,$,#7,(#5));#3=IFCRELAGGREGATES('4',$,$,$,#8,(#7));#8=IFCBUILDINGSTOREY();",
        4,
        Some(8),
    ),
];

/// What is refused, and the object that is named.
static FAULTS: [(&[u8], u64); 12] = [
    // an object that is its own whole
    (
        b"#8=A();#9=IFCRELAGGREGATES('0000000000000000000003',$,$,$,#8,(#8));",
        8,
    ),
    // its own container
    (
        b"#8=A();#9=IFCRELCONTAINEDINSPATIALSTRUCTURE('3',$,$,$,(#8),#8);",
        8,
    ),
    // two containers
    (
        b"#8=A();#9=IFCRELCONTAINEDINSPATIALSTRUCTURE('3',$,$,$,(#8),#5);#10=IFCRELCONTAINEDINSPATIALSTRUCTURE('3',$,$,$,(#8),#6);",
        8,
    ),
    // two wholes
    (
        b"#8=A();#9=IFCRELAGGREGATES('3',$,$,$,#5,(#8));#10=IFCRELAGGREGATES('3',$,$,$,#6,(#8));",
        8,
    ),
    // two wholes beside a container
    (
        b"#8=A();#9=IFCRELAGGREGATES('3',$,$,$,#5,(#8));#10=IFCRELAGGREGATES('3',$,$,$,#6,(#8));#11=IFCRELCONTAINEDINSPATIALSTRUCTURE('3',$,$,$,(#8),#5);",
        8,
    ),
    // the least of several
    (
        b"#9=IFCRELAGGREGATES('3',$,$,$,#5,(#8,#4,#6));#10=IFCRELAGGREGATES('3',$,$,$,#6,(#8,#4));",
        4,
    ),
    // what leads to a loop is none of its members
    (
        b"#10=IFCRELAGGREGATES('3',$,$,$,#2,(#1));#11=IFCRELAGGREGATES('3',$,$,$,#7,(#2));#12=IFCRELAGGREGATES('3',$,$,$,#5,(#7));#13=IFCRELAGGREGATES('3',$,$,$,#7,(#5));",
        5,
    ),
    // a loop of a container and a whole
    (
        b"#10=IFCRELAGGREGATES('3',$,$,$,#2,(#3));#11=IFCRELCONTAINEDINSPATIALSTRUCTURE('3',$,$,$,(#2),#3);",
        2,
    ),
    // a loop of lower numbers than an object with two wholes, and the other way round
    (
        b"#10=IFCRELAGGREGATES('3',$,$,$,#2,(#3,#8));#11=IFCRELAGGREGATES('3',$,$,$,#3,(#2,#8));",
        2,
    ),
    (
        b"#10=IFCRELAGGREGATES('3',$,$,$,#4,(#3,#1));#11=IFCRELAGGREGATES('3',$,$,$,#3,(#4,#1));",
        1,
    ),
    // the way up of an object with two wholes goes by its container: 2 leads to 3 and back
    (
        b"#10=IFCRELAGGREGATES('3',$,$,$,#5,(#3));#11=IFCRELAGGREGATES('3',$,$,$,#6,(#3));#12=IFCRELCONTAINEDINSPATIALSTRUCTURE('3',$,$,$,(#3),#2);#13=IFCRELAGGREGATES('3',$,$,$,#3,(#2));",
        2,
    ),
    // the way up of an object with two wholes and no container ends there: 2 is on no loop
    (
        b"#10=IFCRELAGGREGATES('3',$,$,$,#2,(#3));#11=IFCRELAGGREGATES('3',$,$,$,#6,(#3));#13=IFCRELAGGREGATES('3',$,$,$,#3,(#2));",
        3,
    ),
];

/// The storeys of these objects.
fn assert_storeys(
    rt: &impl Abort,
    alloc: Global,
    exchange: &Exchange,
    wanted: &[(u64, Option<u64>)],
) {
    match tree(alloc, exchange) {
        Ok(storeys) => {
            for (object, storey) in wanted {
                assert_eq!(rt; storeys.storey_of(*object), *storey);
            }
            drop(storeys);
        }
        Err(_) => assert!(rt; false, "refused"),
    }
}

fn fault_of(alloc: Global, exchange: &Exchange) -> Option<u64> {
    match tree(alloc, exchange) {
        Err(BuildError::Fault(UploadFault::TreeFault { id })) => Some(id),
        _ => None,
    }
}

#[test]
fn storeys_are_found_row_by_row(rt: HostRuntime) -> Result<(), Fail> {
    for (data, object, storey) in STOREYS.iter() {
        let exchange = exchange_of(rt.alloc(), data)?;
        assert_storeys(&rt, rt.alloc(), &exchange, &[(*object, *storey)]);
        drop(exchange);
    }
    for (data, id) in FAULTS.iter() {
        let exchange = exchange_of(rt.alloc(), data)?;
        let found = fault_of(rt.alloc(), &exchange);
        drop(exchange);
        assert_eq!(rt; found, Some(*id));
    }
    Ok(())
}

/// An object that is a part of the next one.
fn push_part(alloc: Global, text: &mut String, object: u64) -> Result<(), AllocError> {
    let relation = object.wrapping_add(10000);
    let whole = object.wrapping_add(1);
    let line = format!(in alloc; "#{relation}=IFCRELAGGREGATES($,$,$,$,#{whole},(#{object}));")?;
    let pushed = text.push_str(line.as_str());
    drop(line);
    pushed
}

/// Objects from 1 on, each a part of the next one.
fn chain(alloc: Global, count: u64) -> Result<String, AllocError> {
    let mut text = String::new(alloc);
    for object in 1..count {
        push_part(alloc, &mut text, object)?;
    }
    Ok(text)
}

/// The instances of a chain, and what is behind it.
fn chained(alloc: Global, count: u64, end: &[u8]) -> Result<Exchange, BuildError> {
    let text = chain(alloc, count)?;
    let exchange = exchange_in_parts(alloc, &[text.as_bytes(), end]);
    drop(text);
    exchange
}

/// A chain to a storey, and a loop of a hundred, to which two hundred lead.
#[test]
fn storeys_are_found_by_long_ways(rt: HostRuntime) -> Result<(), Fail> {
    let exchange = chained(rt.alloc(), 1000, b"#1000=IFCBUILDINGSTOREY();")?;
    let wanted = [(1, Some(1000)), (999, Some(1000)), (1000, None)];
    assert_storeys(&rt, rt.alloc(), &exchange, &wanted);
    drop(exchange);
    let looped = b"#20000=IFCRELAGGREGATES($,$,$,$,#201,(#300));";
    let exchange = chained(rt.alloc(), 300, looped)?;
    let found = fault_of(rt.alloc(), &exchange);
    drop(exchange);
    assert_eq!(rt; found, Some(201));
    Ok(())
}
