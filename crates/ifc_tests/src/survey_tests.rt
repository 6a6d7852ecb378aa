//! The instances that a model is read from.
use crate::small_files::exchange_of;
use bim_model::{BuildError, UploadFault};
use ifc_schema::{Survey, survey};
use p21_reader::Exchange;
use std::alloc::{AllocError, Global};
use std::test::Fail;

/// A project with one pipe, line by line.
static LINES: [&[u8]; 8] = [
    b"#1=IFCPROJECT('0000000000000000000001',$,'P',$,$,$,$,(),#2);",
    b"#2=IFCUNITASSIGNMENT((#3));",
    b"#3=IFCSIUNIT(*,.LENGTHUNIT.,.MILLI.,.METRE.);",
    b"#4=IFCCARTESIANPOINTLIST3D(((0.,0.,0.),(100.,0.,0.),(0.,100.,0.)));",
    b"#5=IFCTRIANGULATEDFACESET(#4,$,$,((1,2,3)),$);",
    b"#6=IFCSHAPEREPRESENTATION($,'Body','Tessellation',(#5));",
    b"#7=IFCPRODUCTDEFINITIONSHAPE($,$,(#6));",
    b"#8=IFCPIPESEGMENT('0000000000000000000002',$,'Pipe 1',$,$,$,#7,$,$);",
];

/// What is in place of a line, and what a survey says: a fault's number with its ids, or 0 and how many instances are used and how many
/// elements have a body.
static CASES: [(usize, &[u8], [u64; 3]); 96] = [
    (
        0,
        b"#1=IFCPROJECT('0000000000000000000001',$,'P',$,$,$,$,(),#2);",
        [0, 8, 1],
    ),
    (0, b"#1=IFCPROJECT('0',$,'P',$,$,$,$,());", [7, 1, 0]),
    (0, b"#1=IFCPROJECT('0',$,'P',$,$,$,$,(),#9);", [6, 1, 9]),
    (0, b"#1=IFCPROJECT('0',$,'P',$,$,$,$,(),#3);", [7, 1, 0]),
    (0, b"#1=IFCPROJECT('0',$,'P',$,$,$,$,(),*);", [0, 6, 1]),
    (1, b"#2=IFCUNITASSIGNMENT(#3);", [7, 2, 0]),
    (1, b"#2=IFCUNITASSIGNMENT((#3,#9));", [6, 2, 9]),
    (1, b"#2=IFCUNITASSIGNMENT((5,#9));", [7, 2, 0]),
    (1, b"#2=IFCUNITASSIGNMENT((#9,5));", [6, 2, 9]),
    (1, b"#2=IFCUNITASSIGNMENT((#4));", [0, 7, 1]),
    (1, b"#2=IFCUNITASSIGNMENT((5));#0=IFCPROJECT($);", [7, 0, 0]),
    (
        1,
        b"#2=IFCUNITASSIGNMENT((#9));#9=IFCCONVERSIONBASEDUNIT($,.LENGTHUNIT.,'INCH',#10);#10=IFCMEASUREWITHUNIT(IFCLENGTHMEASURE(25.4),#3);",
        [0, 10, 1],
    ),
    (
        1,
        b"#2=IFCUNITASSIGNMENT((#9));#9=IFCCONVERSIONBASEDUNIT($,.LENGTHUNIT.,'INCH',#10);#10=IFCMEASUREWITHUNIT(25.4,#3);",
        [0, 10, 1],
    ),
    (
        1,
        b"#2=IFCUNITASSIGNMENT((#3,#9));#9=IFCCONVERSIONBASEDUNIT($,.PLANEANGLEUNIT.,'DEGREE',#99);",
        [0, 9, 1],
    ),
    (
        1,
        b"#2=IFCUNITASSIGNMENT((#3,#9));#9=IFCCONVERSIONBASEDUNIT($,.PLANEANGLEUNIT.,'DEGREE',#10);#10=IFCMEASUREWITHUNIT('x',#99);",
        [0, 9, 1],
    ),
    (
        1,
        b"#2=IFCUNITASSIGNMENT((#3,#9));#9=IFCCONVERSIONBASEDUNIT($,.lengthunit.,'INCH',#99);",
        [0, 9, 1],
    ),
    (
        1,
        b"#2=IFCUNITASSIGNMENT((#3,#9));#9=IFCCONVERSIONBASEDUNIT($,.AREAUNIT.);",
        [0, 9, 1],
    ),
    (
        1,
        b"#2=IFCUNITASSIGNMENT((#9));#9=IFCCONVERSIONBASEDUNIT($,$,'INCH',#99);",
        [7, 9, 0],
    ),
    (
        1,
        b"#2=IFCUNITASSIGNMENT((#9));#9=IFCCONVERSIONBASEDUNIT($,.LENGTHUNIT.,'INCH');",
        [7, 9, 0],
    ),
    (
        1,
        b"#2=IFCUNITASSIGNMENT((#9));#9=IFCCONVERSIONBASEDUNIT($,.LENGTHUNIT.,'INCH',$);",
        [7, 9, 0],
    ),
    (
        1,
        b"#2=IFCUNITASSIGNMENT((#9));#9=IFCCONVERSIONBASEDUNIT($,.LENGTHUNIT.,'INCH',#99);",
        [6, 9, 99],
    ),
    (
        1,
        b"#2=IFCUNITASSIGNMENT((#9));#9=IFCCONVERSIONBASEDUNIT($,.LENGTHUNIT.,'INCH',#3);",
        [7, 9, 0],
    ),
    (
        1,
        b"#2=IFCUNITASSIGNMENT((#9));#9=IFCCONVERSIONBASEDUNIT($,.LENGTHUNIT.,'INCH',#10);#10=IFCMEASUREWITHUNIT('25.4',#3);",
        [7, 10, 0],
    ),
    (
        1,
        b"#2=IFCUNITASSIGNMENT((#9));#9=IFCCONVERSIONBASEDUNIT($,.LENGTHUNIT.,'INCH',#10);#10=IFCMEASUREWITHUNIT($,#3);",
        [7, 10, 0],
    ),
    (
        1,
        b"#2=IFCUNITASSIGNMENT((#9));#9=IFCCONVERSIONBASEDUNIT($,.LENGTHUNIT.,'INCH',#10);#10=IFCMEASUREWITHUNIT((25.4),#3);",
        [7, 10, 0],
    ),
    (
        1,
        b"#2=IFCUNITASSIGNMENT((#9));#9=IFCCONVERSIONBASEDUNIT($,.LENGTHUNIT.,'INCH',#10);#10=IFCMEASUREWITHUNIT(IFCLABEL('25.4'),#99);",
        [7, 10, 0],
    ),
    (
        1,
        b"#2=IFCUNITASSIGNMENT((#9));#9=IFCCONVERSIONBASEDUNIT($,.LENGTHUNIT.,'INCH',#10);#10=IFCMEASUREWITHUNIT(IFCLENGTHMEASURE(IFCREAL(25.4)),#3);",
        [7, 10, 0],
    ),
    (
        1,
        b"#2=IFCUNITASSIGNMENT((#9));#9=IFCCONVERSIONBASEDUNIT($,.LENGTHUNIT.,'INCH',#10);#10=IFCMEASUREWITHUNIT(IFCLENGTHMEASURE(99999999999999999999999999999999999),#3);",
        [7, 10, 0],
    ),
    (
        1,
        b"#2=IFCUNITASSIGNMENT((#9));#9=IFCCONVERSIONBASEDUNIT($,.LENGTHUNIT.,'INCH',#10);#10=IFCMEASUREWITHUNIT(25.4);",
        [7, 10, 0],
    ),
    (
        1,
        b"#2=IFCUNITASSIGNMENT((#9));#9=IFCCONVERSIONBASEDUNIT($,.LENGTHUNIT.,'INCH',#10);#10=IFCMEASUREWITHUNIT(25.4,$);",
        [7, 10, 0],
    ),
    (
        1,
        b"#2=IFCUNITASSIGNMENT((#9));#9=IFCCONVERSIONBASEDUNIT($,.LENGTHUNIT.,'INCH',#10);#10=IFCMEASUREWITHUNIT(25.4,#99);",
        [6, 10, 99],
    ),
    (
        1,
        b"#2=IFCUNITASSIGNMENT((#9));#9=IFCCONVERSIONBASEDUNIT($,.LENGTHUNIT.,'INCH',#10);#10=IFCMEASUREWITHUNIT(25.4,#9);",
        [7, 10, 0],
    ),
    (
        1,
        b"#2=IFCUNITASSIGNMENT((#9));#9=IFCCONVERSIONBASEDUNITWITHOFFSET($,.LENGTHUNIT.,'F',#99,1.);",
        [0, 7, 1],
    ),
    (2, b"#3=IFCSIUNIT(*,$,.MILLI.,.METRE.);", [7, 3, 0]),
    (2, b"#3=IFCSIUNIT(*,.LENGTHUNIT.,'M',.METRE.);", [7, 3, 0]),
    (2, b"#3=IFCSIUNIT(*,.LENGTHUNIT.,*,.METRE.);", [0, 8, 1]),
    (2, b"#3=IFCSIUNIT(*,.LENGTHUNIT.,$,$);", [7, 3, 0]),
    (
        3,
        b"#4=IFCCARTESIANPOINTLIST3D(((0.,0.),(100.,0.,0.)));",
        [7, 4, 0],
    ),
    (3, b"#4=IFCCARTESIANPOINTLIST3D(());", [7, 4, 0]),
    (3, b"#4=IFCCARTESIANPOINTLIST3D(((0.,0.,#9)));", [7, 4, 0]),
    (
        3,
        b"#4=IFCCARTESIANPOINTLIST3D(((0.,0.,99999999999999999999999999999999999)));",
        [7, 4, 0],
    ),
    (
        4,
        b"#5=IFCTRIANGULATEDFACESET(#8,$,$,((1,2,3)),$);",
        [7, 5, 0],
    ),
    (
        4,
        b"#5=IFCTRIANGULATEDFACESET(#9,$,$,((1,2)),$);",
        [6, 5, 9],
    ),
    (
        4,
        b"#5=IFCTRIANGULATEDFACESET(#4,$,$,((1,2)),$);",
        [7, 5, 0],
    ),
    (
        4,
        b"#5=IFCTRIANGULATEDFACESET(#4,$,$,((1,2,2.5)),$);",
        [7, 5, 0],
    ),
    (
        4,
        b"#5=IFCTRIANGULATEDFACESET(#4,$,$,((1.,20.E-1,3)));",
        [0, 8, 1],
    ),
    (
        4,
        b"#5=IFCTRIANGULATEDFACESET(#4,$,$,((1,2,3)),(1.5));",
        [7, 5, 0],
    ),
    (
        4,
        b"#5=IFCTRIANGULATEDFACESET(#4,$,$,((1,2,3)),());",
        [0, 8, 1],
    ),
    (
        4,
        b"#5=IFCPOLYGONALFACESET(#4,$,(#10,#11),$);#10=IFCINDEXEDPOLYGONALFACE((1,2,3));#11=IFCINDEXEDPOLYGONALFACEWITHVOIDS((1,2,3),((1,2,3)));",
        [0, 10, 1],
    ),
    (4, b"#5=IFCPOLYGONALFACESET(#4,$,(),$);", [7, 5, 0]),
    (4, b"#5=IFCPOLYGONALFACESET(#4,$,(#4),$);", [7, 5, 0]),
    (
        4,
        b"#5=IFCPOLYGONALFACESET(#4,$,(#10));#10=IFCINDEXEDPOLYGONALFACE((1,2));",
        [7, 10, 0],
    ),
    (
        4,
        b"#5=IFCPOLYGONALFACESET(#4,$,(#10));#10=IFCINDEXEDPOLYGONALFACEWITHVOIDS((1,2,3),());",
        [7, 10, 0],
    ),
    (
        5,
        b"#6=IFCSHAPEREPRESENTATION($,5,'Tessellation',(#5));",
        [7, 6, 0],
    ),
    (
        5,
        b"#6=IFCSHAPEREPRESENTATION($,'Body','Tessellation',());",
        [7, 6, 0],
    ),
    (
        5,
        b"#6=IFCSHAPEREPRESENTATION($,'Body','Tessellation',(#9));",
        [6, 6, 9],
    ),
    (
        5,
        b"#6=IFCSHAPEREPRESENTATION($,'Body','Tessellation',(#4));",
        [0, 6, 1],
    ),
    (
        5,
        b"#6=IFCSHAPEREPRESENTATION($,'Axis','Tessellation',$);",
        [0, 6, 0],
    ),
    (
        5,
        b"#6=IFCSHAPEREPRESENTATION($,'B\\X\\6Fdy','Tessellation',(#5));",
        [0, 8, 1],
    ),
    (
        5,
        b"#6=IFCSHAPEREPRESENTATION($,'Body','M',(#10));#10=IFCMAPPEDITEM(#11,#12);#11=IFCREPRESENTATIONMAP(#13,#15);#12=IFCCARTESIANTRANSFORMATIONOPERATOR3D($,$,#14,$,$);#13=IFCAXIS2PLACEMENT3D(#14,$,$);#14=IFCCARTESIANPOINT((0.,0.,0.));#15=IFCSHAPEREPRESENTATION($,$,$,(#5));",
        [0, 14, 1],
    ),
    (
        5,
        b"#6=IFCSHAPEREPRESENTATION($,'Body','M',(#10));#10=IFCMAPPEDITEM(#5,#12);#11=IFCREPRESENTATIONMAP(#13,#15);#12=IFCCARTESIANTRANSFORMATIONOPERATOR3D($,$,#14,$,$);#13=IFCAXIS2PLACEMENT3D(#14,$,$);#14=IFCCARTESIANPOINT((0.,0.,0.));#15=IFCSHAPEREPRESENTATION($,$,$,(#5));",
        [7, 10, 0],
    ),
    (
        5,
        b"#6=IFCSHAPEREPRESENTATION($,'Body','M',(#10));#10=IFCMAPPEDITEM(#11,#99);#11=IFCREPRESENTATIONMAP(#13,#15);#12=IFCCARTESIANTRANSFORMATIONOPERATOR3D($,$,#14,$,$);#13=IFCAXIS2PLACEMENT3D(#14,$,$);#14=IFCCARTESIANPOINT((0.,0.,0.));#15=IFCSHAPEREPRESENTATION($,$,$,(#5));",
        [6, 10, 99],
    ),
    (
        5,
        b"#6=IFCSHAPEREPRESENTATION($,'Body','M',(#10));#10=IFCMAPPEDITEM(#11,#4);#11=IFCREPRESENTATIONMAP(#13,#15);#12=IFCCARTESIANTRANSFORMATIONOPERATOR3D($,$,#14,$,$);#13=IFCAXIS2PLACEMENT3D(#14,$,$);#14=IFCCARTESIANPOINT((0.,0.,0.));#15=IFCSHAPEREPRESENTATION($,$,$,(#5));",
        [0, 13, 1],
    ),
    (
        5,
        b"#6=IFCSHAPEREPRESENTATION($,'Body','M',(#10));#10=IFCMAPPEDITEM(#11,#12);#11=IFCREPRESENTATIONMAP(#14,#15);#12=IFCCARTESIANTRANSFORMATIONOPERATOR3D($,$,#14,$,$);#13=IFCAXIS2PLACEMENT3D(#14,$,$);#14=IFCCARTESIANPOINT((0.,0.,0.));#15=IFCSHAPEREPRESENTATION($,$,$,(#5));",
        [7, 11, 0],
    ),
    (
        5,
        b"#6=IFCSHAPEREPRESENTATION($,'Body','M',(#10));#10=IFCMAPPEDITEM(#11,#12);#11=IFCREPRESENTATIONMAP(#13,#99);#12=IFCCARTESIANTRANSFORMATIONOPERATOR3D($,$,#14,$,$);#13=IFCAXIS2PLACEMENT3D(#14,$,$);#14=IFCCARTESIANPOINT((0.,0.,0.));#15=IFCSHAPEREPRESENTATION($,$,$,(#5));",
        [6, 11, 99],
    ),
    (
        5,
        b"#6=IFCSHAPEREPRESENTATION($,'Body','M',(#10));#10=IFCMAPPEDITEM(#11,#12);#11=IFCREPRESENTATIONMAP(#13,#15);#12=IFCCARTESIANTRANSFORMATIONOPERATOR3D($,$,$);#13=IFCAXIS2PLACEMENT3D(#14,$,$);#14=IFCCARTESIANPOINT((0.,0.,0.));#15=IFCSHAPEREPRESENTATION($,$,$,(#5));",
        [7, 12, 0],
    ),
    (
        5,
        b"#6=IFCSHAPEREPRESENTATION($,'Body','M',(#10));#10=IFCMAPPEDITEM(#11,#12);#11=IFCREPRESENTATIONMAP(#13,#15);#12=IFCCARTESIANTRANSFORMATIONOPERATOR3D($,$,#14,'1');#13=IFCAXIS2PLACEMENT3D(#14,$,$);#14=IFCCARTESIANPOINT((0.,0.,0.));#15=IFCSHAPEREPRESENTATION($,$,$,(#5));",
        [7, 12, 0],
    ),
    (
        5,
        b"#6=IFCSHAPEREPRESENTATION($,'Body','M',(#10));#10=IFCMAPPEDITEM(#11,#12);#11=IFCREPRESENTATIONMAP(#13,#15);#12=IFCCARTESIANTRANSFORMATIONOPERATOR3D(*,$,#14);#13=IFCAXIS2PLACEMENT3D(#14,$,$);#14=IFCCARTESIANPOINT((0.,0.,0.));#15=IFCSHAPEREPRESENTATION($,$,$,(#5));",
        [0, 14, 1],
    ),
    (
        5,
        b"#6=IFCSHAPEREPRESENTATION($,'Body','M',(#10));#10=IFCMAPPEDITEM(#11,#12);#11=IFCREPRESENTATIONMAP(#13,#15);#12=IFCCARTESIANTRANSFORMATIONOPERATOR3D(#14,$,#14);#13=IFCAXIS2PLACEMENT3D(#14,$,$);#14=IFCCARTESIANPOINT((0.,0.,0.));#15=IFCSHAPEREPRESENTATION($,$,$,(#5));",
        [7, 12, 0],
    ),
    (
        5,
        b"#6=IFCSHAPEREPRESENTATION($,'Body','M',(#10));#10=IFCMAPPEDITEM(#11,#12);#11=IFCREPRESENTATIONMAP(#13,#15);#12=IFCCARTESIANTRANSFORMATIONOPERATOR3D($,$,#14,$,$);#13=IFCAXIS2PLACEMENT3D(#14,#99,$);#14=IFCCARTESIANPOINT((0.,0.,0.));#15=IFCSHAPEREPRESENTATION($,$,$,(#5));",
        [6, 13, 99],
    ),
    (
        5,
        b"#6=IFCSHAPEREPRESENTATION($,'Body','M',(#10));#10=IFCMAPPEDITEM(#11,#12);#11=IFCREPRESENTATIONMAP(#13,#15);#12=IFCCARTESIANTRANSFORMATIONOPERATOR3D($,$,#14,$,$);#13=IFCAXIS2PLACEMENT3D(#14,$);#14=IFCCARTESIANPOINT((0.,0.,0.));#15=IFCSHAPEREPRESENTATION($,$,$,(#5));",
        [7, 13, 0],
    ),
    (
        5,
        b"#6=IFCSHAPEREPRESENTATION($,'Body','M',(#10));#10=IFCMAPPEDITEM(#11,#12);#11=IFCREPRESENTATIONMAP(#13,#15);#12=IFCCARTESIANTRANSFORMATIONOPERATOR3D($,$,#14,$,$);#13=IFCAXIS2PLACEMENT3D(#14,$,$);#14=IFCCARTESIANPOINT((0.,0.));#15=IFCSHAPEREPRESENTATION($,$,$,(#5));",
        [7, 14, 0],
    ),
    (
        5,
        b"#6=IFCSHAPEREPRESENTATION($,'Body','M',(#10));#10=IFCMAPPEDITEM(#11,#12);#11=IFCREPRESENTATIONMAP(#13,#15);#12=IFCCARTESIANTRANSFORMATIONOPERATOR3D($,$,#14,$,$);#13=IFCAXIS2PLACEMENT3D(#14,$,$);#14=IFCCARTESIANPOINT((0.,0.,0.));#15=IFCSHAPEREPRESENTATION($,$,$,(#99));",
        [6, 15, 99],
    ),
    (
        5,
        b"#6=IFCSHAPEREPRESENTATION($,'Body','M',(#10));#10=IFCMAPPEDITEM(#11,#12);#11=IFCREPRESENTATIONMAP(#13,#15);#12=IFCCARTESIANTRANSFORMATIONOPERATOR3D($,$,#14,$,$);#13=IFCAXIS2PLACEMENT3D(#14,$,$);#14=IFCCARTESIANPOINT((0.,0.,0.));#15=IFCSHAPEREPRESENTATION($,$,$,$);",
        [7, 15, 0],
    ),
    (6, b"#7=IFCPRODUCTDEFINITIONSHAPE($,$,#6);", [7, 7, 0]),
    (6, b"#7=IFCPRODUCTDEFINITIONSHAPE($,$,(#9));", [6, 7, 9]),
    (6, b"#7=IFCPRODUCTDEFINITIONSHAPE($,$,());", [0, 5, 0]),
    (
        7,
        b"#8=IFCPIPESEGMENT('2',$,'Pipe 1',$,$,$,#7,$,$);",
        [7, 8, 0],
    ),
    (
        7,
        b"#8=IFCPIPESEGMENT('0000000000000000000002',$,5,$,$,$,#7,$,$);",
        [7, 8, 0],
    ),
    (
        7,
        b"#8=IFCPIPESEGMENT('0000000000000000000002',$,'Pipe 1',$,$,$,#9,$,$);",
        [6, 8, 9],
    ),
    (
        7,
        b"#8=IFCPIPESEGMENT('0000000000000000000002',$,'Pipe 1',$,$,$,#6,$,$);",
        [7, 8, 0],
    ),
    (
        7,
        b"#8=IFCPIPESEGMENT('0000000000000000000002',$,'Pipe 1',$,$,$,#9);",
        [6, 8, 9],
    ),
    (
        7,
        b"#8=IFCPIPESEGMENT('0000000000000000000002',$,'Pipe 1',$,$,$,#7);",
        [7, 8, 0],
    ),
    (
        7,
        b"#8=IFCPIPESEGMENT('0000000000000000000002',$,'Pipe 1',$,$,#9,#7,$,$);",
        [6, 8, 9],
    ),
    (
        7,
        b"#8=IFCPIPESEGMENT('0000000000000000000002',$,'Pipe 1',$,$,#9,$,$,$);",
        [0, 4, 0],
    ),
    (7, b"#8=IFCPERSON('0000000000000000000002');", [0, 3, 0]),
    (7, b"#8=(IFCBEAM()IFCSLAB());", [0, 3, 0]),
    (
        7,
        b"#8=IFCPIPESEGMENT('0000000000000000000002',$,'Pipe 1',$,$,#9,#7,$,$);#9=IFCLOCALPLACEMENT($,#99);",
        [6, 9, 99],
    ),
    (
        7,
        b"#8=IFCPIPESEGMENT('0000000000000000000002',$,'Pipe 1',$,$,#9,#7,$,$);#9=IFCLOCALPLACEMENT(#9,#10);#10=IFCAXIS2PLACEMENT3D(#11,$,#12);#11=IFCCARTESIANPOINT((0.,0.,0.));#12=IFCDIRECTION((6.1E-17,1.,0.));",
        [0, 12, 1],
    ),
    (
        7,
        b"#8=IFCPIPESEGMENT('0000000000000000000002',$,'Pipe 1',$,$,#9,#7,$,$);#9=IFCLOCALPLACEMENT(#8,#10);",
        [7, 9, 0],
    ),
    (
        7,
        b"#8=IFCPIPESEGMENT('0000000000000000000002',$,'Pipe 1',$,$,#9,#7,$,$);#9=IFCLOCALPLACEMENT($,#10);#10=IFCAXIS2PLACEMENT3D(#11,$,#12);#11=IFCCARTESIANPOINT((0.,0.,0.));#12=IFCDIRECTION((1.,0.));",
        [7, 12, 0],
    ),
    (
        7,
        b"#8=IFCPIPESEGMENT('0000000000000000000002',$,'Pipe 1',$,$,$,#7,$,$);#9=IFCBUILDINGSTOREY($,$,5);",
        [7, 9, 0],
    ),
    (
        7,
        b"#8=IFCPIPESEGMENT('0000000000000000000002',$,'Pipe 1',$,$,$,#7,$,$);#9=IFCRELAGGREGATES($,$,$,$,#8,(#99));",
        [6, 9, 99],
    ),
    (
        7,
        b"#8=IFCPIPESEGMENT('0000000000000000000002',$,'Pipe 1',$,$,$,#7,$,$);#9=IFCRELAGGREGATES($,$,$,$,$,(#99));",
        [7, 9, 0],
    ),
    (
        7,
        b"#8=IFCPIPESEGMENT('0000000000000000000002',$,'Pipe 1',$,$,$,#7,$,$);#9=IFCRELCONTAINEDINSPATIALSTRUCTURE($,$,$,$,(#8),#99);",
        [6, 9, 99],
    ),
    (
        7,
        b"#8=IFCPIPESEGMENT('0000000000000000000002',$,'Pipe 1',$,$,$,#7,$,$);#9=IFCRELCONTAINEDINSPATIALSTRUCTURE($,$,$,$,(#8),#8);",
        [0, 9, 1],
    ),
];

/// The lines, with a text in place of one.
fn changed(alloc: Global, place: usize, text: &[u8]) -> Result<Vec<u8>, AllocError> {
    let mut bytes = Vec::new(alloc);
    for (at, line) in LINES.iter().enumerate() {
        bytes.extend_from_slice(if at == place { text } else { *line })?;
    }
    Ok(bytes)
}

/// The instances of the lines with a text in place of one.
fn exchange_with(alloc: Global, place: usize, text: &[u8]) -> Result<Exchange, BuildError> {
    let data = changed(alloc, place, text)?;
    let exchange = exchange_of(alloc, data.as_slice());
    drop(data);
    exchange
}

fn counts(survey: &Survey) -> [u64; 3] {
    [
        0,
        survey.used().len() as u64,
        survey.elements().len() as u64,
    ]
}

/// What a survey says.
fn surveyed(alloc: Global, exchange: &Exchange) -> [u64; 3] {
    match survey(alloc, exchange) {
        Ok(survey) => {
            let found = counts(&survey);
            drop(survey);
            found
        }
        Err(BuildError::Fault(UploadFault::Dangling { id, to })) => [6, id, to],
        Err(BuildError::Fault(UploadFault::BadShape { id })) => [7, id, 0],
        Err(_) => [1, 0, 0],
    }
}

#[test]
fn used_instances_are_found(rt: HostRuntime) -> Result<(), Fail> {
    for (place, text, wanted) in CASES.iter() {
        let exchange = exchange_with(rt.alloc(), *place, text)?;
        let found = surveyed(rt.alloc(), &exchange);
        drop(exchange);
        assert_eq!(rt; found, *wanted);
    }
    Ok(())
}

/// A body that maps the items of a representation that is none, in place of the shape's representation.
static MAPPED: &[u8] =
    b"#6=IFCSHAPEREPRESENTATION($,'Body','MappedRepresentation',(#9));#9=IFCMAPPEDITEM(#10,#11);#10=IFCREPRESENTATIONMAP(#12,#13);#11=IFCCARTESIANTRANSFORMATIONOPERATOR3D($,$,#14,$,$);#12=IFCAXIS2PLACEMENT3D(#14,$,$);#13=IFCSHAPEREPRESENTATION($,'Annotation','Tessellation',(#5));#14=IFCCARTESIANPOINT((0.,0.,0.));";

/// How many instances are mapped, and the first of them.
fn mapped(alloc: Global, exchange: &Exchange) -> Option<(usize, u64)> {
    match survey(alloc, exchange) {
        Ok(survey) => {
            let found = first_mapped(&survey);
            drop(survey);
            found
        }
        Err(_) => None,
    }
}

fn first_mapped(survey: &Survey) -> Option<(usize, u64)> {
    let first = survey.mapped().first()?;
    Some((survey.mapped().len(), *first))
}

#[test]
fn mapped_representations_are_found(rt: HostRuntime) -> Result<(), Fail> {
    let exchange = exchange_with(rt.alloc(), 5, MAPPED)?;
    let found = surveyed(rt.alloc(), &exchange);
    let instances = mapped(rt.alloc(), &exchange);
    drop(exchange);
    assert_eq!(rt; found, [0, 14, 1]);
    assert_eq!(rt; instances, Some((1, 13)));
    Ok(())
}
