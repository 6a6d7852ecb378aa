//! Entries of another book that are brought, and the work of a bucket by its cell.
ghost use Rattle.std.specs.Prelude.{◌≡◌, ◌+◌, IsSome, IfOk, OnOk};
ghost use Rattle.book_history.specs.History.{IsBefore};
ghost use Rattle.book_history.specs.AcceptedChanges.{request_for};

use crate::samples::{author, four_pipes, rules_within, titled};
use bcf_topics::CommentBody;
use bim_model::{Shared, Text};
use book_history::{Change, Entry, Limits, Stamp};
use bucket_grid::Cell;
use federation_book::Book;
use std::alloc::{AllocError, Global};
use std::process::Abort;
use std::test::Fail;

// Brings a change of the first project at a turn: it is added, or it isn't.
fn brings(
    rt: &impl Abort,
    book: &mut Book,
    turn: u64,
    change: Change,
    wanted: bool,
) -> Result<(), AllocError>
    requires before { IsBefore turn book.old.journal }
    requires asked { IsSome (request_for 1 change) }
    ensures { OnOk result (IsBefore (turn + 1) book.new.journal) }
{
    let stamp = Stamp {
        turn,
        pass: 0,
        call: turn,
    };
    let entry = Entry {
        stamp,
        project: 1,
        change,
    };
    let added = book.bring(entry)?;
    assert_eq!(rt; added, wanted);
    Ok(())
}

// Rules, four pipes, and a model that isn't there is taken out.
fn versions(rt: &impl Abort, alloc: Global, book: &mut Book) -> Result<(), Fail>
    requires { IsBefore 1 book.old.journal }
    ensures { OnOk result (IsBefore 4 book.new.journal) }
{
    let rules = Shared::new(alloc, rules_within(alloc, 50)?)?;
    brings(rt, book, 1, Change::SetRules { rules, weight: 45 }, true)?;
    let name = Text::of(alloc, "m")?;
    let model = four_pipes(alloc, 1700)?;
    brings(rt, book, 2, Change::Upload { name, model }, true)?;
    let name = Text::of(alloc, "n")?;
    brings(rt, book, 3, Change::Remove { name }, false)?;
    Ok(())
}

// A comment on a topic, about this viewpoint.
fn comment(alloc: Global, topic: u64, viewpoint: Option<u64>) -> Result<Change, AllocError>
    ensures { IfOk result (λ change. IsSome (request_for 1 change)) }
{
    let author = author(alloc, "anna")?;
    Ok(Change::PostComment {
        topic,
        body: CommentBody {
            comment: Text::of(alloc, "So?")?,
            viewpoint,
        },
        author,
        weight: 2,
    })
}

// A topic, a comment on it, and numbers that no topic and no viewpoint has.
fn notes(rt: &impl Abort, alloc: Global, book: &mut Book) -> Result<(), Fail>
    requires { IsBefore 4 book.old.journal }
    ensures { OnOk result (IsBefore 8 book.new.journal) }
{
    let author = author(alloc, "anna")?;
    let body = titled(alloc, "Pipe")?;
    let posted = Change::PostTopic {
        body,
        author,
        weight: 17,
    };
    brings(rt, book, 4, posted, true)?;
    brings(rt, book, 5, comment(alloc, 1, None)?, true)?;
    brings(rt, book, 6, comment(alloc, 1, Some(9))?, false)?;
    let far = (1_u64 << 48) + 1;
    brings(rt, book, 7, Change::DeleteTopic { topic: far }, false)?;
    Ok(())
}

// Whether a version of a project has a bucket of this cell.
fn has_work(book: &Book, project: u32, version: u64, cell: Cell) -> Result<bool, AllocError> {
    let work = book.work_of(project, version, cell)?;
    let found = work.is_some();
    drop(work);
    Ok(found)
}

#[test]
fn entries_are_brought(rt: HostRuntime) -> Result<(), Fail> {
    let alloc = rt.alloc();
    let mut book = Book::new(alloc, 2, Limits::stated())?;
    versions(&rt, alloc, &mut book)?;
    notes(&rt, alloc, &mut book)?;
    assert_eq!(rt; book.journal().len(), 4);
    assert_eq!(rt; book.left_all(), 2);
    let near = Cell { x: 0, y: 0, z: 0 };
    let empty = Cell { x: 1, y: 0, z: 0 };
    assert!(rt; has_work(&book, 1, 2, near)?);
    assert!(rt; !has_work(&book, 1, 2, empty)?);
    assert!(rt; !has_work(&book, 1, 3, near)?);
    assert!(rt; !has_work(&book, 2, 2, near)?);
    assert!(rt; !has_work(&book, 0, 0, near)?);
    assert!(rt; !has_work(&book, 9, 0, near)?);
    Ok(())
}
