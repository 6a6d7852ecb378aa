//! A small file and changes of it, with what they make by hand work.
use crate::small_files::joined;
use bim_model::{BuildError, Bytes, Element, Mode, Model, UploadFault};
use model_build::{build, build_owned};
use model_walk::walk;
use p21_reader::{Exchange, read};
use std::alloc::{AllocError, Global};
use std::process::Abort;
use std::test::Fail;

const UNIT: &str = "IFCSIUNIT(*,.LENGTHUNIT.,.MILLI.,.METRE.)";

const PIPE: &str = "IFCPIPESEGMENT('0000000000000000000002',$,'Pipe 1',$,$,$,#7,$,$)";

const PLACED: &str = "IFCPIPESEGMENT('0000000000000000000002',$,'Pipe 1',$,$,#9,#7,$,$)";

/// A file whose unit, whose one element and whose other instances are these.
fn file(alloc: Global, unit: &str, element: &str, others: &str) -> Result<Vec<u8>, AllocError> {
    let parts = [
        b"ISO-10303-21;HEADER;FILE_SCHEMA(('IFC4'));ENDSEC;DATA;#1=IFCPROJECT('0000000000000000000001',$,'P',$,$,$,$,(),#2);#2=IFCUNITASSIGNMENT((#3));#3=".as_slice(),
        unit.as_bytes(),
        b";#4=IFCCARTESIANPOINTLIST3D(((0.,0.,0.),(100.,0.,0.),(0.,100.,0.)));#5=IFCTRIANGULATEDFACESET(#4,$,$,((1,2,3)),$);#6=IFCSHAPEREPRESENTATION($,'Body','Tessellation',(#5));#7=IFCPRODUCTDEFINITIONSHAPE($,$,(#6));#8=".as_slice(),
        element.as_bytes(),
        b";".as_slice(),
        others.as_bytes(),
        b"ENDSEC;END-ISO-10303-21;".as_slice(),
    ];
    joined(alloc, &parts)
}

/// A unit, an element, other instances, and the fault of the file.
static CHANGES: [(&str, &str, &str, UploadFault); 7] = [
    (
        "IFCSIUNIT(*,.LENGTHUNIT.,.NANO.,.METRE.)",
        PIPE,
        "",
        UploadFault::LengthUnit { id: 1 },
    ),
    (
        UNIT,
        PIPE,
        "#9=IFCRELAGGREGATES('0000000000000000000003',$,$,$,#8,(#8));",
        UploadFault::TreeFault { id: 8 },
    ),
    (
        UNIT,
        PIPE,
        "#9=IFCBEAM('0000000000000000000002',$,$,$,$,$,#7,$,$);",
        UploadFault::DoubleGuid { id: 9 },
    ),
    (
        UNIT,
        PLACED,
        "#9=IFCLOCALPLACEMENT(#9,#10);#10=IFCAXIS2PLACEMENT3D(#11,$,$);#11=IFCCARTESIANPOINT((0.,0.,0.));",
        UploadFault::PlacementLoop { id: 9 },
    ),
    (
        UNIT,
        PLACED,
        "#9=IFCLOCALPLACEMENT($,#10);#10=IFCAXIS2PLACEMENT3D(#11,$,#12);#11=IFCCARTESIANPOINT((0.,0.,0.));#12=IFCDIRECTION((0.6,0.8,0.));",
        UploadFault::Oblique { id: 10 },
    ),
    (
        UNIT,
        PLACED,
        "#9=IFCLOCALPLACEMENT($,#10);#10=IFCAXIS2PLACEMENT3D(#11,$,$);#11=IFCCARTESIANPOINT((0.55,0.,0.));",
        UploadFault::OffGrid { id: 11 },
    ),
    (
        UNIT,
        PLACED,
        "#9=IFCLOCALPLACEMENT($,#10);#10=IFCAXIS2PLACEMENT3D(#11,$,$);#11=IFCCARTESIANPOINT((800000.,0.,0.));",
        UploadFault::TooFar { id: 8 },
    ),
];

/// A pipe that is turned and moved, in a storey.
static TURNED: &str =
    "#9=IFCLOCALPLACEMENT($,#10);#10=IFCAXIS2PLACEMENT3D(#11,$,#12);#11=IFCCARTESIANPOINT((1000.,0.,0.));#12=IFCDIRECTION((6.1E-17,1.,0.));#13=IFCBUILDINGSTOREY('0000000000000000000003',$,'EG',$,$,$,$,$,$,$);#14=IFCRELCONTAINEDINSPATIALSTRUCTURE('0000000000000000000004',$,$,$,(#8),#13);";

fn model_of(alloc: Global, others: &str) -> Result<Model, BuildError> {
    let file = file(alloc, UNIT, PLACED, others)?;
    let bytes = Bytes::of(alloc, file.as_slice());
    drop(file);
    build_owned(alloc, bytes?, Mode::Exact)
}

fn assert_pipe(rt: &impl Abort, element: &Element) {
    assert_eq!(rt; element.class.as_str(), "IFCPIPESEGMENT");
    assert_eq!(rt; element.name.as_str(), "Pipe 1");
    assert!(rt; element.storey.is_some());
    for triangle in element.triangles.as_slice() {
        assert_eq!(rt; triangle.b.x, 10_000);
        assert_eq!(rt; triangle.b.y, 1_000);
        assert_eq!(rt; triangle.c.x, 9_000);
    }
}

fn assert_model(rt: &impl Abort, model: &Model) {
    assert_eq!(rt; model.triangle_count(), 1);
    for element in model.elements() {
        assert_pipe(rt, element);
    }
}

#[test]
fn a_model_is_built(rt: HostRuntime) -> Result<(), Fail> {
    let model = model_of(rt.alloc(), TURNED)?;
    assert_model(&rt, &model);
    drop(model);
    Ok(())
}

/// The fault of a file; none where it makes a model.
fn fault_of(alloc: Global, file: &[u8]) -> Option<UploadFault> {
    match build(alloc, file, Mode::Exact) {
        Err(BuildError::Fault(fault)) => Some(fault),
        Err(BuildError::Memory) => None,
        Ok(model) => {
            drop(model);
            None
        }
    }
}

#[test]
fn the_first_fault_is_named(rt: HostRuntime) -> Result<(), Fail> {
    for (unit, element, others, wanted) in CHANGES.iter() {
        let file = file(rt.alloc(), unit, element, others)?;
        let found = fault_of(rt.alloc(), file.as_slice());
        drop(file);
        assert_eq!(rt; found, Some(*wanted), "at {others}");
    }
    Ok(())
}

/// How many elements a walk gives; none where it says nothing.
fn walked(alloc: Global, exchange: &Exchange) -> Result<Option<usize>, Fail> {
    let Some(walked) = walk(alloc, exchange, Mode::Exact)? else {
        return Ok(None);
    };
    let elements = walked.into_elements(alloc)?;
    let count = elements.len();
    drop(elements);
    Ok(Some(count))
}

/// How many elements the walk of a file gives.
fn walked_of(alloc: Global, element: &str, others: &str) -> Result<Option<usize>, Fail> {
    let file = file(alloc, UNIT, element, others)?;
    let exchange = read(alloc, file.as_slice());
    drop(file);
    let exchange = exchange?;
    let count = walked(alloc, &exchange);
    drop(exchange);
    count
}

#[test]
fn a_walk_gives_elements(rt: HostRuntime) -> Result<(), Fail> {
    let whole = walked_of(rt.alloc(), PIPE, "")?;
    assert_eq!(rt; whole, Some(1));
    let looped = walked_of(rt.alloc(), PLACED, CHANGES[3].2)?;
    assert_eq!(rt; looped, None);
    Ok(())
}
