//! The file of one element, written out.

use model_generator::Pieces;
use std::alloc::{AllocError, Global};
use std::test::Fail;

static ONE: &str =
    "ISO-10303-21;\nHEADER;\nFILE_DESCRIPTION((''),'2;1');\nFILE_NAME('a.ifc','2024-05-01T12:00:00',(''),(''),'','','');\nFILE_SCHEMA(('IFC4'));\nENDSEC;\nDATA;\n#1=IFCPROJECT('0000000000000000000001',$,'P',$,$,$,$,(),#2);\n#2=IFCUNITASSIGNMENT((#3));\n#3=IFCSIUNIT(*,.LENGTHUNIT.,.MILLI.,.METRE.);\n#10=IFCCARTESIANPOINTLIST3D(((34774.,24153.,5196.),(35444.,24153.,5196.),(34774.,24487.,5196.),(35444.,24487.,5196.),(34774.,24153.,5691.),(35444.,24153.,5691.),(34774.,24487.,5691.),(35444.,24487.,5691.)));\n#11=IFCTRIANGULATEDFACESET(#10,$,.T.,((1,3,2),(2,3,4),(5,6,7),(6,8,7),(1,2,5),(2,6,5),(3,7,4),(4,7,8),(1,5,3),(3,5,7),(2,4,6),(4,8,6)),$);\n#12=IFCSHAPEREPRESENTATION($,'Body','Tessellation',(#11));\n#13=IFCPRODUCTDEFINITIONSHAPE($,$,(#12));\n#14=IFCBEAM('0000000000000000000001',$,'0000000000000000000001',$,$,$,#13,$,$);\nENDSEC;\nEND-ISO-10303-21;\n";

/// The pieces, one behind the other.
fn written(alloc: Global, pieces: &mut Pieces) -> Result<String, AllocError> {
    let mut written = String::new(alloc);
    for _ in 0..10 {
        match pieces.next(alloc)? {
            Some(piece) => written.push_str(piece.as_str())?,
            None => break,
        }
    }
    Ok(written)
}

#[test]
fn the_file_of_one_element_is_written(rt: HostRuntime) -> Result<(), Fail> {
    let written = written(rt.alloc(), &mut Pieces::of(1, 1))?;
    assert_eq!(rt; written.as_str(), ONE);
    drop(written);
    Ok(())
}
