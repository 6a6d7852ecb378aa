//! Sessions by a pass, over connections in memory.
ghost use Rattle.std.specs.Prelude.{◌≡◌, ◌≤◌, IfOk};
ghost use Rattle.book_turn.specs.Passes.{IsSingle};

use bim_io::{MemClock, MemSink, MemSource};
use bim_model::{Bytes, Items};
use bim_net::{FreeGate, Link};
use bim_session::SessionEnd;
use book_history::Limits;
use book_turn::pass::Pass;
use book_turn::turn::Turn;
use federation_book::Book;
use http_frame::FrameFault;
use link_session::serve_link;
use std::alloc::Global;
use std::process::Abort;
use std::sync::Wait;
use std::test::Fail;

const MADE_AND_LISTED: &[u8] =
    b"POST /bcf/3.0/projects/00000001-0000-8000-8000-000000000000/topics HTTP/1.1\r\nHost: h\r\nContent-Length: 16\r\n\r\n{\"title\":\"Pipe\"}GET /bcf/3.0/projects/00000001-0000-8000-8000-000000000000/topics HTTP/1.1\r\nHost: h\r\n\r\n";

const MADE_AND_LISTED_ANSWERS: &[u8] =
    b"HTTP/1.1 201 Created\r\nContent-Type: application/json\r\nX-Book-Turn: 1\r\nContent-Length: 156\r\n\r\n{\"creation_author\":\"anonymous\",\"creation_date\":\"2024-05-01T12:00:00Z\",\"guid\":\"00000001-0000-8000-8000-000000000001\",\"server_assigned_id\":\"1\",\"title\":\"Pipe\"}HTTP/1.1 200 OK\r\nContent-Type: application/json\r\nX-Book-Turn: 2\r\nContent-Length: 158\r\n\r\n[{\"creation_author\":\"anonymous\",\"creation_date\":\"2024-05-01T12:00:00Z\",\"guid\":\"00000001-0000-8000-8000-000000000001\",\"server_assigned_id\":\"1\",\"title\":\"Pipe\"}]";

// A list that a later session asks for, of HTTP/1.0, and another request, which is not answered.
const CLOSED: &[u8] =
    b"GET /bcf/3.0/projects/00000001-0000-8000-8000-000000000000/topics/ HTTP/1.0\r\n\r\nGET / HTTP/1.1\r\nHost: h\r\n\r\n";

const CLOSED_ANSWER: &[u8] =
    b"HTTP/1.1 404 Not Found\r\nContent-Type: application/json\r\nConnection: close\r\nContent-Length: 36\r\n\r\n{\"code\":\"H7\",\"message\":\"H7 NoRoute\"}";

const NONSENSE_ANSWER: &[u8] =
    b"HTTP/1.1 400 Bad Request\r\nContent-Type: application/json\r\nConnection: close\r\nContent-Length: 36\r\n\r\n{\"code\":\"H1\",\"message\":\"H1 BadHead\"}";

fn listed(alloc: Global, number: u64) -> Result<Items<u64>, Fail> {
    let mut list = Items::new(alloc);
    list.push(number)?;
    Ok(list)
}

// One connection that sends these bytes, of which one call moves at most so many, and whose read and write of these numbers
// fail (0: none). How its session ends, and what is written.
fn assert_serves<R: Wait + Abort>(
    rt: &R,
    alloc: Global,
    turn: &Turn<Book>,
    pass: &mut Pass<Book>,
    input: &[u8],
    most: u64,
    fails: (u64, u64),
    end: SessionEnd,
    output: &[u8],
) -> Result<(), Fail>
    requires some { 1 ≤ most }
    requires own { IsSingle turn.now pass.old }
    ensures { IsSingle turn.now pass.new }
{
    let contents = Bytes::of(alloc, input)?;
    let mut link = Link {
        source: MemSource::new(contents, most, listed(alloc, fails.0)?)?,
        sink: MemSink::new(alloc, most, listed(alloc, fails.1)?)?,
    };
    let mut clock = MemClock::new(1_714_564_800);
    let gate = FreeGate::new(1);
    let ended = serve_link(rt, alloc, &mut link, turn, pass, &mut clock, &gate);
    assert_eq!(rt; ended, end);
    assert_eq!(rt; link.sink.bytes(), output);
    Ok(())
}

fn opened(alloc: Global) -> Result<(Turn<Book>, Pass<Book>), Fail>
    ensures single { IfOk result (λ r. IsSingle r.0 r.1) }
    ensures one { IfOk result (λ r. r.0.passes ≡ 1) }
{
    let book = Book::new(alloc, 1, Limits::stated())?;
    let (turn, mut passes) = Turn::new(alloc, book, 1)?;
    let pass = passes.pop().ok_or("a pass")?;
    Ok((turn, pass))
}

// Sessions of one pass, one after another: the later ones see what the first made, and their turns go on from its last.
#[test]
fn sessions_of_a_pass_go_on_from_its_turns(rt: HostRuntime) -> Result<(), Fail> {
    let alloc = rt.alloc();
    for most in [1, 7, 1_000_000] {
        let (turn, mut pass) = opened(alloc)?;
        let answers = MADE_AND_LISTED_ANSWERS;
        assert_serves(
            &rt,
            alloc,
            &turn,
            &mut pass,
            MADE_AND_LISTED,
            most,
            (0, 0),
            SessionEnd::Closed { served: 2 },
            answers,
        )?;
        assert_eq!(rt; pass.last(), 2);
        assert_serves(
            &rt,
            alloc,
            &turn,
            &mut pass,
            CLOSED,
            most,
            (0, 0),
            SessionEnd::Asked { served: 1 },
            CLOSED_ANSWER,
        )?;
        assert_serves(
            &rt,
            alloc,
            &turn,
            &mut pass,
            b"\r\n",
            most,
            (0, 0),
            SessionEnd::Closed { served: 0 },
            b"",
        )?;
        assert_serves(
            &rt,
            alloc,
            &turn,
            &mut pass,
            b"GET",
            most,
            (0, 0),
            SessionEnd::Cut { served: 0 },
            b"",
        )?;
        let frame = SessionEnd::Frame {
            served: 0,
            fault: FrameFault::BadHead,
        };
        assert_serves(
            &rt,
            alloc,
            &turn,
            &mut pass,
            b"NONSENSE\r\n",
            most,
            (0, 0),
            frame,
            NONSENSE_ANSWER,
        )?;
        assert_eq!(rt; pass.last(), 2);
        let book = turn.close(pass);
        assert_eq!(rt; book.journal().len(), 1);
    }
    Ok(())
}

// A read or a write that fails ends its session; the change that was made before stands.
#[test]
fn faults_of_a_connection_end_its_session(rt: HostRuntime) -> Result<(), Fail> {
    let alloc = rt.alloc();
    let (turn, mut pass) = opened(alloc)?;
    let read = SessionEnd::ReadFault { served: 0 };
    assert_serves(
        &rt,
        alloc,
        &turn,
        &mut pass,
        MADE_AND_LISTED,
        1,
        (1, 0),
        read,
        b"",
    )?;
    assert_eq!(rt; pass.last(), 0);
    let write = SessionEnd::WriteFault { served: 0 };
    assert_serves(
        &rt,
        alloc,
        &turn,
        &mut pass,
        MADE_AND_LISTED,
        1,
        (0, 3),
        write,
        b"HT",
    )?;
    assert_eq!(rt; pass.last(), 1);
    let book = turn.close(pass);
    assert_eq!(rt; book.journal().len(), 1);
    Ok(())
}
