//! Recorded sessions over sources and sinks in memory.
ghost use Rattle.std.specs.Prelude.{◌≤◌};

use bim_files::MemFiles;
use bim_io::{ListClock, MemClock, MemSink, MemSource, SureSink, SureSource};
use bim_model::{Bytes, Items, Moment, Text};
use bim_net::MemHost;
use server_commands::{run, run_replay, run_serve};
use std::alloc::Global;
use std::mem::drop;
use std::process::Abort;
use std::sync::Wait;
use std::test::Fail;
use std::thread::Threads;

const MADE_AND_LISTED: &[u8] =
    b"POST /bcf/3.0/projects/00000001-0000-8000-8000-000000000000/topics HTTP/1.1\r\nHost: h\r\nContent-Length: 16\r\n\r\n{\"title\":\"Pipe\"}GET /bcf/3.0/projects/00000001-0000-8000-8000-000000000000/topics HTTP/1.1\r\nHost: h\r\n\r\n";

const MADE_AND_LISTED_ANSWERS: &[u8] =
    b"HTTP/1.1 201 Created\r\nContent-Type: application/json\r\nX-Book-Turn: 1\r\nContent-Length: 156\r\n\r\n{\"creation_author\":\"anonymous\",\"creation_date\":\"2024-05-01T12:00:00Z\",\"guid\":\"00000001-0000-8000-8000-000000000001\",\"server_assigned_id\":\"1\",\"title\":\"Pipe\"}HTTP/1.1 200 OK\r\nContent-Type: application/json\r\nX-Book-Turn: 2\r\nContent-Length: 158\r\n\r\n[{\"creation_author\":\"anonymous\",\"creation_date\":\"2024-05-01T12:00:00Z\",\"guid\":\"00000001-0000-8000-8000-000000000001\",\"server_assigned_id\":\"1\",\"title\":\"Pipe\"}]";

// The answers to what the source gives, in pieces of at most so many bytes each way.
fn assert_replays(
    rt: &impl Abort,
    alloc: Global,
    most: u64,
    input: &[u8],
    output: &[u8],
) -> Result<(), Fail>
    requires { 1 ≤ most }
{
    let mut source = SureSource::new(Bytes::of(alloc, input)?, most)?;
    let mut sink = SureSink::new(alloc, most)?;
    let mut clock = MemClock::new(1_714_564_800);
    let status = run_replay(alloc, &[], &mut source, &mut sink, &mut clock);
    assert_eq!(rt; status, 0);
    assert_eq!(rt; sink.bytes(), output);
    Ok(())
}

#[test]
fn a_session_is_answered_in_any_pieces(rt: HostRuntime) -> Result<(), Fail> {
    let alloc = rt.alloc();
    assert_replays(&rt, alloc, 1, MADE_AND_LISTED, MADE_AND_LISTED_ANSWERS)?;
    assert_replays(&rt, alloc, 7, MADE_AND_LISTED, MADE_AND_LISTED_ANSWERS)?;
    assert_replays(
        &rt,
        alloc,
        100_000,
        MADE_AND_LISTED,
        MADE_AND_LISTED_ANSWERS,
    )?;
    assert_replays(&rt, alloc, 1, b"", b"")
}

const TWO_MADE: &[u8] =
    b"POST /bcf/3.0/projects/00000001-0000-8000-8000-000000000000/topics HTTP/1.1\r\nHost: h\r\nContent-Length: 16\r\n\r\n{\"title\":\"Pipe\"}POST /bcf/3.0/projects/00000001-0000-8000-8000-000000000000/topics HTTP/1.1\r\nHost: h\r\nContent-Length: 16\r\n\r\n{\"title\":\"Duct\"}";

const TWO_MADE_ANSWERS: &[u8] =
    b"HTTP/1.1 201 Created\r\nContent-Type: application/json\r\nX-Book-Turn: 1\r\nContent-Length: 156\r\n\r\n{\"creation_author\":\"anonymous\",\"creation_date\":\"2024-05-01T12:00:00Z\",\"guid\":\"00000001-0000-8000-8000-000000000001\",\"server_assigned_id\":\"1\",\"title\":\"Pipe\"}HTTP/1.1 201 Created\r\nContent-Type: application/json\r\nX-Book-Turn: 2\r\nContent-Length: 156\r\n\r\n{\"creation_author\":\"anonymous\",\"creation_date\":\"2024-05-01T12:00:12Z\",\"guid\":\"00000001-0000-8000-8000-000000000002\",\"server_assigned_id\":\"2\",\"title\":\"Duct\"}";

// Two topics that are made 12 seconds apart bear their own dates.
#[test]
fn each_request_has_a_moment_of_its_own(rt: HostRuntime) -> Result<(), Fail> {
    let alloc = rt.alloc();
    let mut moments = Items::new(alloc);
    moments.push(Moment::new(1_714_564_800))?;
    moments.push(Moment::new(1_714_564_812))?;
    let mut clock = ListClock::new(moments);
    let mut source = SureSource::new(Bytes::of(alloc, TWO_MADE)?, 7)?;
    let mut sink = SureSink::new(alloc, 100)?;
    let status = run_replay(alloc, &[], &mut source, &mut sink, &mut clock);
    assert_eq!(rt; status, 0);
    assert_eq!(rt; sink.bytes(), TWO_MADE_ANSWERS);
    Ok(())
}

const CONTINUED: &[u8] =
    b"POST /bcf/3.0/projects/00000001-0000-8000-8000-000000000000/topics HTTP/1.1\r\nHost: h\r\nExpect: 100-continue\r\nContent-Length: 2\r\n\r\n{}";

const CONTINUED_ANSWERS: &[u8] =
    b"HTTP/1.1 100 Continue\r\n\r\nHTTP/1.1 422 Unprocessable Entity\r\nContent-Type: application/json\r\nContent-Length: 34\r\n\r\n{\"code\":\"B3\",\"message\":\"B3 Title\"}";

// A request of HTTP/1.0, and another, which is not answered.
const CLOSED: &[u8] =
    b"\r\nGET /bcf/3.0/projects/00000001-0000-8000-8000-000000000000/topics HTTP/1.0\r\n\r\nGET /bcf/3.0/projects/00000001-0000-8000-8000-000000000000/topics HTTP/1.1\r\nHost: h\r\n\r\n";

const CLOSED_ANSWER: &[u8] =
    b"HTTP/1.1 200 OK\r\nContent-Type: application/json\r\nX-Book-Turn: 1\r\nConnection: close\r\nContent-Length: 2\r\n\r\n[]";

// The 100 comes once and before the body is read; after the answer to a request that closes nothing is answered; empty
// lines before the end are no request.
#[test]
fn a_session_goes_on_and_closes(rt: HostRuntime) -> Result<(), Fail> {
    let alloc = rt.alloc();
    assert_replays(&rt, alloc, 1, CONTINUED, CONTINUED_ANSWERS)?;
    assert_replays(&rt, alloc, 100_000, CONTINUED, CONTINUED_ANSWERS)?;
    assert_replays(&rt, alloc, 1, CLOSED, CLOSED_ANSWER)?;
    assert_replays(&rt, alloc, 3, b"\r\n\n\r\n", b"")
}

// A rule, two pipes ten millimetres apart at an edge of four cells, and the clashes of that version.
pub(crate) const FOUND: &[u8] =
    b"PUT /coord/1/projects/00000001-0000-8000-8000-000000000000/rules HTTP/1.1\r\nHost: h\r\nContent-Length: 43\r\n\r\n{\"rules\":[{\"a\":\"*\",\"b\":\"*\",\"distance\":50}]}PUT /coord/1/projects/00000001-0000-8000-8000-000000000000/models/m HTTP/1.1\r\nHost: h\r\nContent-Length: 969\r\n\r\nISO-10303-21;\nHEADER;\nFILE_DESCRIPTION((''),'2;1');\nFILE_NAME('a.ifc','2024-05-01T12:00:00',(''),(''),'','','');\nFILE_SCHEMA(('IFC4'));\nENDSEC;\nDATA;\n#1=IFCPROJECT('0000000000000000000001',$,'P',$,$,$,$,(),#2);\n#2=IFCUNITASSIGNMENT((#3));\n#3=IFCSIUNIT(*,.LENGTHUNIT.,.MILLI.,.METRE.);\n#10=IFCCARTESIANPOINTLIST3D(((3950.,3950.,1500.),(4050.,3950.,1500.),(3950.,4050.,1500.)));\n#11=IFCTRIANGULATEDFACESET(#10,$,$,((1,2,3)),$);\n#12=IFCSHAPEREPRESENTATION($,'Body','Tessellation',(#11));\n#13=IFCPRODUCTDEFINITIONSHAPE($,$,(#12));\n#14=IFCPIPESEGMENT('0000000000000000000011',$,'0000000000000000000011',$,$,$,#13,$,$);\n#20=IFCCARTESIANPOINTLIST3D(((3950.,3950.,1510.),(4050.,3950.,1510.),(3950.,4050.,1510.)));\n#21=IFCTRIANGULATEDFACESET(#20,$,$,((1,2,3)),$);\n#22=IFCSHAPEREPRESENTATION($,'Body','Tessellation',(#21));\n#23=IFCPRODUCTDEFINITIONSHAPE($,$,(#22));\n#24=IFCPIPESEGMENT('0000000000000000000012',$,'0000000000000000000012',$,$,$,#23,$,$);\nENDSEC;\nEND-ISO-10303-21;\nGET /coord/1/projects/00000001-0000-8000-8000-000000000000/versions/2/clashes HTTP/1.1\r\nHost: h\r\n\r\n";

const FOUND_ANSWERS: &[u8] =
    b"HTTP/1.1 200 OK\r\nContent-Type: application/json\r\nX-Book-Turn: 1\r\nContent-Length: 49\r\n\r\n{\"elements\":0,\"left\":0,\"triangles\":0,\"version\":1}HTTP/1.1 201 Created\r\nContent-Type: application/json\r\nX-Book-Turn: 2\r\nContent-Length: 49\r\n\r\n{\"elements\":2,\"left\":4,\"triangles\":2,\"version\":2}HTTP/1.1 200 OK\r\nContent-Type: application/json\r\nX-Book-Turn: 11\r\nContent-Length: 170\r\n\r\n{\"clashes\":[{\"a\":{\"guid\":\"0000000000000000000011\",\"model\":\"m\"},\"b\":{\"guid\":\"0000000000000000000012\",\"model\":\"m\"},\"distance\":50,\"rule\":0}],\"first\":0,\"total\":1,\"version\":2}";

const FOUND_AGAIN: &[u8] =
    b"GET /coord/1/projects/00000001-0000-8000-8000-000000000000/versions/2/clashes?first=1 HTTP/1.1\r\nHost: h\r\n\r\nGET /bcf/3.0/projects/00000001-0000-8000-8000-000000000000/topics HTTP/1.1\r\nHost: h\r\n\r\n";

const FOUND_AGAIN_ANSWERS: &[u8] =
    b"HTTP/1.1 200 OK\r\nContent-Type: application/json\r\nX-Book-Turn: 11\r\nContent-Length: 46\r\n\r\n{\"clashes\":[],\"first\":1,\"total\":1,\"version\":2}HTTP/1.1 200 OK\r\nContent-Type: application/json\r\nX-Book-Turn: 12\r\nContent-Length: 2\r\n\r\n[]";

fn joined(alloc: Global, first: &[u8], second: &[u8]) -> Result<Vec<u8>, Fail> {
    let mut bytes = Vec::new(alloc);
    bytes.extend_from_slice(first)?;
    bytes.extend_from_slice(second)?;
    Ok(bytes)
}

// Clashes that were answered are answered again, also another part of them, without a turn; the next request takes one.
#[test]
fn clashes_are_answered_again_without_a_turn(rt: HostRuntime) -> Result<(), Fail> {
    let alloc = rt.alloc();
    let input = joined(alloc, FOUND, FOUND_AGAIN)?;
    let output = joined(alloc, FOUND_ANSWERS, FOUND_AGAIN_ANSWERS)?;
    assert_replays(&rt, alloc, 9, input.as_slice(), output.as_slice())
}

// All four buckets are checked, by eight turns, before the next request is read.
#[test]
fn a_pair_in_four_cells_is_found_once(rt: HostRuntime) -> Result<(), Fail> {
    let alloc = rt.alloc();
    assert_replays(&rt, alloc, 100_000, FOUND, FOUND_ANSWERS)
}

fn fails_at(alloc: Global, call: u64) -> Result<Items<u64>, Fail> {
    let mut fails = Items::new(alloc);
    fails.push(call)?;
    Ok(fails)
}

// The status where a read or a write of this number fails (0: none), in pieces of at most so many bytes. What is
// written is a front of the answers, and all of them where nothing fails.
fn failing(rt: &impl Abort, alloc: Global, most: u64, read: u64, write: u64) -> Result<u8, Fail>
    requires { 1 ≤ most }
{
    let contents = Bytes::of(alloc, MADE_AND_LISTED)?;
    let mut source = MemSource::new(contents, most, fails_at(alloc, read)?)?;
    let mut sink = MemSink::new(alloc, most, fails_at(alloc, write)?)?;
    let mut clock = MemClock::new(1_714_564_800);
    let status = run_replay(alloc, &[], &mut source, &mut sink, &mut clock);
    assert!(rt; MADE_AND_LISTED_ANSWERS.starts_with(sink.bytes()));
    if status == 0 {
        assert_eq!(rt; sink.bytes(), MADE_AND_LISTED_ANSWERS);
    }
    Ok(status)
}

// Each of so many reads fails in turn, and each of so many writes; one more of either is not made.
fn assert_each_fails(
    rt: &impl Abort,
    alloc: Global,
    most: u64,
    reads: u64,
    writes: u64,
) -> Result<(), Fail>
    requires { 1 ≤ most }
{
    for call in 1..=reads {
        assert_eq!(rt; failing(rt, alloc, most, call, 0)?, 4, "read {call}");
    }
    for call in 1..=writes {
        assert_eq!(rt; failing(rt, alloc, most, 0, call)?, 5, "write {call}");
    }
    assert_eq!(rt;
        failing(
            rt,
            alloc,
            most,
            reads.saturating_add(1),
            writes.saturating_add(1)
        )?,
        0
    );
    Ok(())
}

#[test]
fn each_fault_of_the_outside_has_its_status(rt: HostRuntime) -> Result<(), Fail> {
    let alloc = rt.alloc();
    // 211 bytes come in, and the two answers of 249 and 246 bytes go out; one read more meets the end.
    assert_each_fails(&rt, alloc, 1, 212, 495)?;
    assert_each_fails(&rt, alloc, 2, 107, 248)?;
    assert_each_fails(&rt, alloc, 1_000_000, 2, 2)
}

pub(crate) fn words_of(alloc: Global, words: &[&str]) -> Result<Vec<Text>, Fail> {
    let mut made = Vec::new(alloc);
    for word in words {
        made.push(Text::of(alloc, word)?)?;
    }
    Ok(made)
}

// The status of the words over an empty input, and whether the usage line is printed.
fn assert_words<R: Threads + Wait + Sync + Abort>(
    rt: &R,
    alloc: Global,
    words: &[&str],
    status: u8,
    output: &[u8],
) -> Result<(), Fail> {
    let words = words_of(alloc, words)?;
    let mut source = SureSource::new(Bytes::of(alloc, b"")?, 100)?;
    let mut sink = SureSink::new(alloc, 100)?;
    let mut clock = MemClock::new(0);
    let mut files = MemFiles::new(alloc, Vec::new(alloc), 100, Items::new(alloc))?;
    let mut host = MemHost::new(alloc, Vec::new(alloc), 0, Items::new(alloc));
    let ended = run(
        rt,
        alloc,
        words.as_slice(),
        &mut source,
        &mut sink,
        &mut files,
        &mut clock,
        &mut host,
    );
    let told = ended.status;
    drop(ended);
    assert_eq!(rt; told, status);
    assert_eq!(rt; sink.bytes(), output);
    Ok(())
}

#[test]
fn words_outside_the_grammar_print_the_usage(rt: HostRuntime) -> Result<(), Fail> {
    let alloc = rt.alloc();
    let usage = b"usage: bim_server replay|check|generate|serve\n".as_slice();
    assert_words(&rt, alloc, &["replay"], 0, b"")?;
    assert_words(&rt, alloc, &["replay", "--at", "253402207200"], 0, b"")?;
    assert_words(&rt, alloc, &["replay", "--at", "253402207201"], 2, usage)?;
    assert_words(&rt, alloc, &["replay", "--at", "+5"], 2, usage)?;
    assert_words(&rt, alloc, &["replay", "--projects", "8", "--at=5"], 0, b"")?;
    assert_words(&rt, alloc, &["replay", "--projects", "9"], 2, usage)?;
    assert_words(&rt, alloc, &["replay", "--buckets=1000000"], 0, b"")?;
    assert_words(&rt, alloc, &["replay", "--buckets", "1000001"], 2, usage)?;
    assert_words(&rt, alloc, &["replay", "--at", "5", "--at", "6"], 2, usage)?;
    assert_words(&rt, alloc, &["replay", "--help"], 2, usage)?;
    assert_words(&rt, alloc, &["check"], 2, usage)?;
    assert_words(&rt, alloc, &["check", "--rules", "r", "m=f"], 4, b"")?;
    assert_words(
        &rt,
        alloc,
        &["generate", "--count=1"],
        0,
        b"elements 1\ntriangles 12\nclashes 0\n",
    )?;
    assert_words(&rt, alloc, &["serve"], 0, b"")?;
    assert_words(&rt, alloc, &["serve", "--lanes", "33"], 2, usage)?;
    assert_words(&rt, alloc, &["--version"], 0, b"bim_server 0.9.0\n")?;
    assert_words(&rt, alloc, &["--version", "serve"], 2, usage)?;
    assert_words(&rt, alloc, &["--help", "serve"], 2, usage)?;
    assert_words(&rt, alloc, &[], 2, usage)
}

// The status of a server over this host.
fn serves<R: Threads + Wait + Sync>(rt: &R, alloc: Global, host: &mut MemHost) -> u8 {
    let ended = run_serve(rt, alloc, &[], host);
    let status = ended.status;
    drop(ended);
    status
}

// Where the doors can't be opened the status is 4; where none has a connection it is 0.
#[test]
fn a_server_without_doors_ends(rt: HostRuntime) -> Result<(), Fail> {
    let alloc = rt.alloc();
    let mut closed = MemHost::new(alloc, Vec::new(alloc), 0, fails_at(alloc, 1)?);
    assert_eq!(rt; serves(&rt, alloc, &mut closed), 4);
    let mut idle = MemHost::new(alloc, Vec::new(alloc), 0, Items::new(alloc));
    assert_eq!(rt; serves(&rt, alloc, &mut idle), 0);
    Ok(())
}
