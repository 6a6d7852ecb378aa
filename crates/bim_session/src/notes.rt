//! What a session keeps of the book's replies.
ghost use Rattle.std.specs.Prelude.{◌≡◌, ◌↔◌, ℕ, None, IsTrue, IfOk, IfSome, OnOk, OnErr};
ghost use Rattle.clash_publish.specs.Shelves.{set_of};
ghost use Rattle.bim_session.specs.ShelfNotes.{named_project, project_read, set_told, put_set, IsUpTo, AsksShelf, IsShelfReply, AsksKept, IsKeptReply, Noted};

use bim_model::id_of;
use book_history::{BookCall, BookReply, BookRequest, MOST_PROJECTS, ReplyBody, Wanted};
use clash_publish::{Horizon, Shelf};
use std::alloc::{AllocError, Global};

/// What a session keeps of the book's replies: the turn that was printed last, the newest versions then, and the
/// clashes that it was answered, of versions that were live then.
#[derive(Drop)]
pub struct Notes {
    pub turn: u64,
    pub horizon: Horizon,
    pub shelf: Shelf,
}

// The number of the project that has the identifier, among as many as a book may have.
fn named_project(id: u128) -> Option<u32>
    ensures { result ≡ named_project id }
{
    let number = (id >> 96) as u32;
    if id == id_of(number, 0) && number > 0 && number <= MOST_PROJECTS {
        Some(number)
    } else {
        None
    }
}

// The number of the project whose clashes a request asks for.
pub(crate) fn project_read(request: &BookRequest) -> Option<u32>
    ensures { result ≡ project_read request.now }
{
    match request {
        BookRequest::ReadClashes { project, .. } => named_project(*project),
        _ => None,
    }
}

// The turn that a call gives, if it gives one, isn't above this one.
fn is_up_to(turn: u64, seen: Option<u64>) -> bool
    ensures { IsTrue result ↔ IsUpTo turn seen }
{
    match seen {
        Some(given) => given <= turn,
        None => true,
    }
}

// Puts the clashes that a reply tells on the shelf, under the project of this number. An `Err` leaves the shelf as it
// was.
fn put_told(shelf: &mut Shelf, project: Option<u32>, body: &ReplyBody) -> Result<(), AllocError>
    ensures ok { OnOk result ((p v : ℕ)
        → set_of shelf.new p v ≡ put_set project (set_told body.now) (set_of shelf.old) p v) }
    ensures err { OnErr result (shelf.new ≡ shelf.old) }
{
    let Some(number) = project else {
        return Ok(());
    };
    match body {
        ReplyBody::Clashes { version, set, .. } => shelf.put(number, *version, set.share()?),
        _ => Ok(()),
    }
}

impl Notes {
    /// Nothing was printed yet, and this is the last turn before.
    pub fn new(alloc: Global, turn: u64) -> Notes
        ensures turn { result.turn ≡ turn }
        ensures empty { (p v : ℕ) → set_of result.shelf p v ≡ None }
    {
        Notes {
            turn,
            horizon: Horizon { newest: [0; 8] },
            shelf: Shelf::new(alloc),
        }
    }

    /// The book's reply to a call that asks for clashes on the shelf and gives no turn above the one that was printed
    /// last, as it is at that turn. For any other call there is none.
    #[tactic(auto, using(crate::proofs::ShelfReplies::kept_up_to, crate::proofs::ShelfReplies::unkept_up_to))]
    pub fn reply_to(&self, call: &BookCall) -> Result<Option<BookReply>, AllocError>
        ensures kept { IfOk result (λ reply. IfSome reply (IsKeptReply self.now call.now)) }
        ensures none { IfOk result (λ reply. reply ≡ None → ¬ (AsksKept self.now call.now)) }
    {
        if !is_up_to(self.turn, call.seen) {
            return Ok(None);
        }
        self.on_shelf(&call.request)
    }

    // The reply to a request that asks for clashes on the shelf.
    fn on_shelf(&self, request: &BookRequest) -> Result<Option<BookReply>, AllocError>
        ensures kept { IfOk result (λ reply. IfSome reply (IsShelfReply self.now request.now)) }
        ensures none { IfOk result (λ reply. reply ≡ None → ¬ (AsksShelf self.now request.now)) }
    {
        match request {
            BookRequest::ReadClashes {
                project,
                version,
                first,
                count,
            } => {
                let Wanted::Number(version) = *version else {
                    return Ok(None);
                };
                let Some(number) = named_project(*project) else {
                    return Ok(None);
                };
                let Some(set) = self.shelf.get(number, version) else {
                    return Ok(None);
                };
                let body = ReplyBody::Clashes {
                    version,
                    set: set.share()?,
                    first: *first,
                    count: *count,
                };
                Ok(Some(BookReply {
                    body,
                    horizon: self.horizon,
                }))
            }
            _ => Ok(None),
        }
    }

    /// Notes a reply, which is printed with this turn, to a call that asks for clashes of the project of this number, or
    /// for other things. An `Err` leaves the notes as they were.
    pub fn take(
        &mut self,
        turn: u64,
        project: Option<u32>,
        reply: &BookReply,
    ) -> Result<(), AllocError>
        ensures ok { OnOk result (Noted turn project reply.now self.old self.new) }
        ensures err { OnErr result (self.new ≡ self.old) }
    {
        put_told(&mut self.shelf, project, &reply.body)?;
        self.shelf.keep(&reply.horizon);
        self.turn = turn;
        self.horizon = reply.horizon;
        Ok(())
    }
}
