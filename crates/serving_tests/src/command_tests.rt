//! Checks over files in memory, and generated models.
ghost use Rattle.std.specs.Prelude.{◌≤◌};

use batch_commands::{run_check, run_generate};
use bim_files::{MemFile, MemFiles};
use bim_io::MemSink;
use bim_model::{Bytes, Items, Text};
use std::alloc::Global;
use std::process::Abort;
use std::test::Fail;

// Four pieces of pipe, of which two are 50 millimetres apart and two 200.
const PIPES: &str =
    "ISO-10303-21;\nHEADER;\nFILE_DESCRIPTION((''),'2;1');\nFILE_NAME('a.ifc','2024-05-01T12:00:00',(''),(''),'','','');\nFILE_SCHEMA(('IFC4'));\nENDSEC;\nDATA;\n#1=IFCPROJECT('0000000000000000000001',$,'P',$,$,$,$,(),#2);\n#2=IFCUNITASSIGNMENT((#3));\n#3=IFCSIUNIT(*,.LENGTHUNIT.,.MILLI.,.METRE.);\n#10=IFCCARTESIANPOINTLIST3D(((1500.,1500.,1500.),(1600.,1500.,1500.),(1500.,1600.,1500.)));\n#11=IFCTRIANGULATEDFACESET(#10,$,$,((1,2,3)),$);\n#12=IFCSHAPEREPRESENTATION($,'Body','Tessellation',(#11));\n#13=IFCPRODUCTDEFINITIONSHAPE($,$,(#12));\n#14=IFCPIPESEGMENT('0000000000000000000011',$,'0000000000000000000011',$,$,$,#13,$,$);\n#20=IFCCARTESIANPOINTLIST3D(((1500.,1500.,1550.),(1600.,1500.,1550.),(1500.,1600.,1550.)));\n#21=IFCTRIANGULATEDFACESET(#20,$,$,((1,2,3)),$);\n#22=IFCSHAPEREPRESENTATION($,'Body','Tessellation',(#21));\n#23=IFCPRODUCTDEFINITIONSHAPE($,$,(#22));\n#24=IFCPIPESEGMENT('0000000000000000000012',$,'0000000000000000000012',$,$,$,#23,$,$);\n#30=IFCCARTESIANPOINTLIST3D(((9500.,1500.,1500.),(9600.,1500.,1500.),(9500.,1600.,1500.)));\n#31=IFCTRIANGULATEDFACESET(#30,$,$,((1,2,3)),$);\n#32=IFCSHAPEREPRESENTATION($,'Body','Tessellation',(#31));\n#33=IFCPRODUCTDEFINITIONSHAPE($,$,(#32));\n#34=IFCPIPESEGMENT('0000000000000000000013',$,'0000000000000000000013',$,$,$,#33,$,$);\n#40=IFCCARTESIANPOINTLIST3D(((9500.,1500.,1700.),(9600.,1500.,1700.),(9500.,1600.,1700.)));\n#41=IFCTRIANGULATEDFACESET(#40,$,$,((1,2,3)),$);\n#42=IFCSHAPEREPRESENTATION($,'Body','Tessellation',(#41));\n#43=IFCPRODUCTDEFINITIONSHAPE($,$,(#42));\n#44=IFCPIPESEGMENT('0000000000000000000014',$,'0000000000000000000014',$,$,$,#43,$,$);\nENDSEC;\nEND-ISO-10303-21;\n";

// A length between two millimetres, in instance 4.
const OFF_GRID: &str =
    "ISO-10303-21;\nHEADER;\nFILE_DESCRIPTION((''),'2;1');\nFILE_NAME('a.ifc','2024-05-01T12:00:00',(''),(''),'','','');\nFILE_SCHEMA(('IFC4'));\nENDSEC;\nDATA;\n#1=IFCPROJECT('0000000000000000000001',$,'P',$,$,$,$,(),#2);\n#2=IFCUNITASSIGNMENT((#3));\n#3=IFCSIUNIT(*,.LENGTHUNIT.,.MILLI.,.METRE.);\n#4=IFCCARTESIANPOINTLIST3D(((0.,0.,0.),(12.55,0.,0.),(0.,100.,0.)));\n#5=IFCTRIANGULATEDFACESET(#4,$,$,((1,2,3)),$);\n#6=IFCSHAPEREPRESENTATION($,'Body','Tessellation',(#5));\n#7=IFCPRODUCTDEFINITIONSHAPE($,$,(#6));\n#8=IFCPIPESEGMENT('0000000000000000000002',$,'0000000000000000000002',$,$,$,#7,$,$);\nENDSEC;\nEND-ISO-10303-21;\n";

const RULES: &str = "{\"rules\":[{\"a\":\"*\",\"b\":\"*\",\"distance\":50}]}";

const CLASHES: &str = "m 0000000000000000000011 m 0000000000000000000012 0\nclashes 1\n";

fn words_of(alloc: Global, words: &[&str]) -> Result<Vec<Text>, Fail> {
    let mut made = Vec::new(alloc);
    for word in words {
        made.push(Text::of(alloc, word)?)?;
    }
    Ok(made)
}

fn numbers(alloc: Global, list: &[u64]) -> Result<Items<u64>, Fail> {
    Ok(Items::from_vec(list.to_vec(alloc)?))
}

fn file(alloc: Global, name: &str, contents: &str, fails: &[u64]) -> Result<MemFile, Fail> {
    Ok(MemFile {
        name: Text::of(alloc, name)?,
        contents: Bytes::of(alloc, contents.as_bytes())?,
        read_fails: numbers(alloc, fails)?,
    })
}

// A file of rules, pipes and a file off the grid, of which the openings of those numbers fail, and the reads
// of the pipes.
fn files_of(alloc: Global, opens: &[u64], reads: &[u64]) -> Result<MemFiles, Fail> {
    let mut files = Vec::new(alloc);
    files.push(file(alloc, "r.json", RULES, &[])?)?;
    files.push(file(alloc, "b.ifc", PIPES, reads)?)?;
    files.push(file(alloc, "a.ifc", OFF_GRID, &[])?)?;
    Ok(MemFiles::new(alloc, files, 1000, numbers(alloc, opens)?)?)
}

// A sink that takes so many bytes at a time at most.
fn sink_of(alloc: Global, most: u64, fails: &[u64]) -> Result<MemSink, Fail>
    requires { 1 ≤ most }
{
    let fails = numbers(alloc, fails)?;
    Ok(MemSink::new(alloc, most, fails)?)
}

// What a check of the words prints over the files, and its status.
fn assert_printed(
    rt: &impl Abort,
    alloc: Global,
    words: &[Text],
    files: &mut MemFiles,
    writes: &[u64],
    (status, output): (u8, &str),
) -> Result<(), Fail> {
    let mut sink = sink_of(alloc, 7, writes)?;
    let answered = run_check(alloc, words, files, &mut sink);
    assert_eq!(rt; answered, status);
    assert_eq!(rt; sink.bytes(), output.as_bytes());
    drop(sink);
    Ok(())
}

fn assert_files(
    rt: &impl Abort,
    alloc: Global,
    words: &[Text],
    (opens, reads, writes): (&[u64], &[u64], &[u64]),
    wanted: (u8, &str),
) -> Result<(), Fail> {
    let mut files = files_of(alloc, opens, reads)?;
    let printed = assert_printed(rt, alloc, words, &mut files, writes, wanted);
    drop(files);
    printed
}

// What a check of the words prints, where the openings, the reads of the pipes and the writes of those numbers
// fail, and its status.
fn assert_check(
    rt: &impl Abort,
    alloc: Global,
    words: &[&str],
    fails: (&[u64], &[u64], &[u64]),
    wanted: (u8, &str),
) -> Result<(), Fail> {
    let words = words_of(alloc, words)?;
    let printed = assert_files(rt, alloc, words.as_slice(), fails, wanted);
    drop(words);
    printed
}

// What is printed where a write fails is a front of the output.
#[test]
fn checks_print_clashes(rt: HostRuntime) -> Result<(), Fail> {
    let alloc = rt.alloc();
    let good = ["--rules", "r.json", "m=b.ifc"];
    assert_check(&rt, alloc, &good, (&[], &[], &[]), (0, CLASHES))?;
    assert_check(&rt, alloc, &good, (&[1], &[], &[]), (4, ""))?;
    assert_check(&rt, alloc, &good, (&[], &[2], &[]), (4, ""))?;
    let front = "m 000000000000";
    assert_check(&rt, alloc, &good, (&[], &[], &[3]), (5, front))
}

#[test]
fn checks_print_one_refusal(rt: HostRuntime) -> Result<(), Fail> {
    let alloc = rt.alloc();
    let off = ["--rules=r.json", "m=a.ifc", "n=none.ifc"];
    let wanted = (3, "m: U9 OffGrid 4\n");
    assert_check(&rt, alloc, &off, (&[], &[], &[]), wanted)?;
    let bad = ["--rules", "b.ifc", "m=b.ifc"];
    let wanted = (3, "rules: H9 BadJson\n");
    assert_check(&rt, alloc, &bad, (&[], &[], &[]), wanted)?;
    let usage = (2, "usage: bim_server replay|check|generate|serve\n");
    assert_check(&rt, alloc, &[], (&[], &[], &[]), usage)?;
    let twice = ["--rules", "r.json", "m=b.ifc", "m=a.ifc"];
    assert_check(&rt, alloc, &twice, (&[], &[], &[]), usage)
}

fn assert_generated(
    rt: &impl Abort,
    alloc: Global,
    words: &[Text],
    end: &str,
) -> Result<usize, Fail> {
    let mut sink = sink_of(alloc, 1000, &[])?;
    let answered = run_generate(alloc, words, &mut sink);
    assert_eq!(rt; answered, 0);
    assert!(rt; sink.bytes().ends_with(end.as_bytes()));
    let length = sink.bytes().len();
    drop(sink);
    Ok(length)
}

// What is generated for the words ends so. How long it is.
fn generated(rt: &impl Abort, alloc: Global, words: &[&str], end: &str) -> Result<usize, Fail> {
    let words = words_of(alloc, words)?;
    let length = assert_generated(rt, alloc, words.as_slice(), end);
    drop(words);
    length
}

#[test]
fn models_are_generated(rt: HostRuntime) -> Result<(), Fail> {
    let alloc = rt.alloc();
    let counts = "elements 1\ntriangles 12\nclashes 0\n";
    let length = generated(&rt, alloc, &["--count", "1"], counts)?;
    assert_eq!(rt; length, counts.len());
    let end = "ENDSEC;\nEND-ISO-10303-21;\n";
    let length = generated(&rt, alloc, &["--count=1", "--file"], end)?;
    assert!(rt; length > end.len());
    Ok(())
}
