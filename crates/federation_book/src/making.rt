//! Changes that make versions.
ghost use Rattle.std.specs.Prelude.{◌≡◌, ◌≤◌, ◌++◌, Some, length, IfOk, IfSome, OnOk, OnErr};
ghost use Rattle.std.specs.List.{list_any};
ghost use Rattle.std.specs.Str.{bytes_eq};
ghost use Rattle.bim_model.specs.Keys.{subjects_of};
ghost use Rattle.bim_model.specs.declared.named_model.NamedModel.{NamedModel};
ghost use Rattle.bucket_grid.specs.declared.grid.TheConstants.{MOST_ELEMENTS, MOST_MEMBERSHIPS};
ghost use Rattle.book_turn.specs.Entries.{listed};
ghost use Rattle.book_history.specs.Settings.{IsWithinStated};
ghost use Rattle.book_history.specs.Projects.{newest_content, next_content};
ghost use Rattle.book_history.specs.History.{state_of, IsBefore};
ghost use Rattle.book_history.specs.Weights.{told, text_of, triangles_of, elements_in, triangles_among};
ghost use Rattle.book_history.specs.Refusals.{first_of, full};
ghost use Rattle.book_history.specs.Requests.{in_project, changed, removed, body_of, entry_by, entry_of, version_made};
ghost use Rattle.federation_book.specs.KeptProjects.{IsKept, settings_of, unless_refused};
ghost use Rattle.federation_book.specs.inner.NextVersions.{IsNext, IsGridWithin};

use crate::state::State;
use crate::version::KeptVersion;
use bim_model::{Duplicate, Model, NamedModel, Rules, Shared, Snapshot, Text};
use book_history::{
    BookFault, Change, Entry, Limits, ReplyBody, Stamp, elements_in, model_text, triangles_among,
};
use bucket_grid::{Grid, GridError};
use std::alloc::{AllocError, Global};

/// The next version of a project, or why it isn't made.
#[derive(Drop)]
pub enum NextVersion {
    Made(KeptVersion),
    Refused(BookFault),
}

// The grid of a version that isn't too large.
fn grid_of(
    alloc: Global,
    limits: &Limits,
    snapshot: &Shared<Snapshot>,
) -> Result<Result<Grid, BookFault>, AllocError>
    requires within { limits.now.memberships ≤ MOST_MEMBERSHIPS }
    requires few { length (subjects_of snapshot.now.models) ≤ MOST_ELEMENTS }
    ensures { IfOk result (IsGridWithin limits.now snapshot.now) }
{
    let limit = limits.memberships;
    match Grid::of(alloc, snapshot.share()?) {
        Ok(grid) => {
            let count = grid.memberships();
            if count > limit {
                Ok(Err(BookFault::TooSpread { count, limit }))
            } else {
                Ok(Ok(grid))
            }
        }
        Err(GridError::TooSpread { count }) => Ok(Err(BookFault::TooSpread { count, limit })),
        Err(GridError::Memory) => Err(AllocError),
    }
}

// The version that holds this, of that number, made after another one. Buckets that were checked there and
// didn't change are checked.
fn next_version(
    alloc: Global,
    limits: &Limits,
    before: &KeptVersion,
    number: u64,
    snapshot: Shared<Snapshot>,
) -> Result<NextVersion, AllocError>
    requires { IsWithinStated limits.now }
    ensures { IfOk result (IsNext limits.now before.now snapshot) }
{
    let count = elements_in(snapshot.get().models());
    let limit = limits.elements;
    if count > limit {
        return Ok(NextVersion::Refused(BookFault::ElementsFull { count, limit }));
    }
    match grid_of(alloc, limits, &snapshot)? {
        Err(fault) => Ok(NextVersion::Refused(fault)),
        Ok(grid) => Ok(NextVersion::Made(before.next(alloc, number, snapshot, grid)?)),
    }
}

// Makes the version of a change, unless something is full. By the change so many triangles and bytes of texts
// come.
fn make_version(
    state: &mut State,
    number: u32,
    stamp: Stamp,
    change: Change,
    snapshot: Shared<Snapshot>,
    triangles: u64,
    text: u64,
) -> Result<Option<BookFault>, AllocError>
    requires kept { IsKept state.old }
    requires after { IsBefore stamp.turn state.old.entries.items }
    requires low { 1 ≤ number }
    requires high { number ≤ length state.old.projects.items }
    requires next { next_content (newest_content (state_of number state.old.entries.items)) change
        ≡ Some snapshot }
    requires triangles { triangles ≡ triangles_of change }
    requires text { text ≡ told (text_of change) }
    ensures fault { IfOk result (λ f. f
        ≡ first_of (full (settings_of state.old) state.old.entries.items number change)) }
    ensures added { IfOk result (λ f. state.new.entries.items
        ≡ state.old.entries.items ++ unless_refused f (entry_of stamp number change)) }
    ensures settings { settings_of state.new ≡ settings_of state.old }
    ensures kept { IsKept state.new }
    ensures err { OnErr result (state.new.entries.items ≡ state.old.entries.items) }
{
    let alloc = *state.entries.allocator();
    let project = state.project(number);
    let before = project.newest_version();
    let next = next_version(alloc, &state.limits, before, project.newest + 1, snapshot)?;
    let version = match next {
        NextVersion::Refused(fault) => return Ok(Some(fault)),
        NextVersion::Made(version) => version,
    };
    let left = project.left_with(version.left());
    let full = state.store_full(number, triangles, text, left);
    if full.is_some() {
        return Ok(full);
    }
    state.entries.reserve(1)?;
    let project = &mut state.projects[number as usize - 1];
    project.live.reserve(1)?;
    project.push_version(version);
    let entry = Entry {
        stamp,
        project: number,
        change,
    };
    state.append(entry, triangles, text);
    Ok(None)
}

// What is told of the newest version of a project.
fn version_made(state: &State, number: u32, elements: u64, triangles: u64) -> ReplyBody
    requires kept { IsKept state.now }
    requires low { 1 ≤ number }
    requires high { number ≤ length state.now.projects.items }
    ensures { result ≡ version_made elements triangles (state_of number state.now.entries.items) }
{
    let project = state.project(number);
    let version = project.newest_version();
    ReplyBody::Changed {
        version: project.newest,
        elements,
        triangles,
        left: version.left(),
    }
}

// .. by what it holds.
fn whole_version_made(state: &State, number: u32) -> ReplyBody
    requires kept { IsKept state.now }
    requires low { 1 ≤ number }
    requires high { number ≤ length state.now.projects.items }
    ensures { let project = state_of number state.now.entries.items in
        let models = (newest_content project).models in
        result ≡ version_made (told (elements_in models)) (told (triangles_among models)) project }
{
    let project = state.project(number);
    let models = project.newest_version().snapshot().get().models();
    let elements = elements_in(models);
    let triangles = triangles_among(models);
    version_made(state, number, elements, triangles)
}

/// Puts a model in its place by name.
pub fn upload(
    state: &mut State,
    number: Option<u32>,
    stamp: Stamp,
    name: Text,
    model: Shared<Model>,
) -> Result<ReplyBody, AllocError>
    requires kept { IsKept state.old }
    requires after { IsBefore stamp.turn state.old.entries.items }
    requires number { IfSome number (λ n. (1 ≤ n) × (n ≤ length state.old.projects.items)) }
    ensures reply { let outcome = in_project number
        (changed (settings_of state.old) state.old.entries.items (Change.Upload name model)) in
        IfOk result (λ body. body ≡ body_of state.old.entries.items outcome) }
    ensures added { let outcome = in_project number
        (changed (settings_of state.old) state.old.entries.items (Change.Upload name model)) in
        OnOk result (state.new.entries.items ≡ state.old.entries.items ++ listed (entry_by stamp outcome)) }
    ensures settings { settings_of state.new ≡ settings_of state.old }
    ensures kept { IsKept state.new }
    ensures err { OnErr result (state.new.entries.items ≡ state.old.entries.items) }
{
    let Some(number) = number else {
        return Ok(ReplyBody::Refused(BookFault::NoProject));
    };
    let alloc = *state.entries.allocator();
    let project = state.project(number);
    let before = project.newest_version();
    let named = NamedModel {
        name: name.copy(alloc)?,
        model: model.share()?,
    };
    let next = before.snapshot().get().with_model(alloc, named)?;
    let snapshot = Shared::new(alloc, next)?;
    let elements = model.get().elements().len() as u64;
    let triangles = model.get().triangle_count();
    let text = model_text(model.get());
    let change = Change::Upload { name, model };
    match make_version(state, number, stamp, change, snapshot, triangles, text)? {
        Some(fault) => Ok(ReplyBody::Refused(fault)),
        None => Ok(version_made(state, number, elements, triangles)),
    }
}

// Whether one of the models has the name.
fn has_model(models: &[NamedModel], name: &str) -> bool
    ensures { result ≡ list_any (λ (m : NamedModel). bytes_eq m.name name.now) models.now }
{
    for model in models {
        if model.name.as_str() == name {
            return true;
        }
    }
    false
}

/// Takes the model of a name out.
pub fn remove(
    state: &mut State,
    number: Option<u32>,
    stamp: Stamp,
    name: Text,
) -> Result<ReplyBody, AllocError>
    requires kept { IsKept state.old }
    requires after { IsBefore stamp.turn state.old.entries.items }
    requires number { IfSome number (λ n. (1 ≤ n) × (n ≤ length state.old.projects.items)) }
    ensures reply { let outcome = in_project number
        (removed (settings_of state.old) state.old.entries.items name) in
        IfOk result (λ body. body ≡ body_of state.old.entries.items outcome) }
    ensures added { let outcome = in_project number
        (removed (settings_of state.old) state.old.entries.items name) in
        OnOk result (state.new.entries.items ≡ state.old.entries.items ++ listed (entry_by stamp outcome)) }
    ensures settings { settings_of state.new ≡ settings_of state.old }
    ensures kept { IsKept state.new }
    ensures err { OnErr result (state.new.entries.items ≡ state.old.entries.items) }
{
    let Some(number) = number else {
        return Ok(ReplyBody::Refused(BookFault::NoProject));
    };
    let alloc = *state.entries.allocator();
    let project = state.project(number);
    let before = project.newest_version();
    if !has_model(before.snapshot().get().models(), name.as_str()) {
        return Ok(ReplyBody::Refused(BookFault::NoModel));
    }
    let next = before.snapshot().get().without_model(alloc, name.as_str())?;
    let snapshot = Shared::new(alloc, next)?;
    match make_version(
        state,
        number,
        stamp,
        Change::Remove { name },
        snapshot,
        0,
        0,
    )? {
        Some(fault) => Ok(ReplyBody::Refused(fault)),
        None => Ok(whole_version_made(state, number)),
    }
}

/// Sets the rules.
pub fn set_rules(
    state: &mut State,
    number: Option<u32>,
    stamp: Stamp,
    rules: Rules,
    weight: u64,
) -> Result<ReplyBody, AllocError>
    requires kept { IsKept state.old }
    requires after { IsBefore stamp.turn state.old.entries.items }
    requires number { IfSome number (λ n. (1 ≤ n) × (n ≤ length state.old.projects.items)) }
    ensures reply { let outcome = in_project number
        (changed (settings_of state.old) state.old.entries.items (Change.SetRules rules weight)) in
        IfOk result (λ body. body ≡ body_of state.old.entries.items outcome) }
    ensures added { let outcome = in_project number
        (changed (settings_of state.old) state.old.entries.items (Change.SetRules rules weight)) in
        OnOk result (state.new.entries.items ≡ state.old.entries.items ++ listed (entry_by stamp outcome)) }
    ensures settings { settings_of state.new ≡ settings_of state.old }
    ensures kept { IsKept state.new }
    ensures err { OnErr result (state.new.entries.items ≡ state.old.entries.items) }
{
    let alloc = *state.entries.allocator();
    let rules = Shared::new(alloc, rules)?;
    set_shared_rules(state, number, stamp, rules, weight)
}

/// Sets the rules, which others may hold too.
pub fn set_shared_rules(
    state: &mut State,
    number: Option<u32>,
    stamp: Stamp,
    rules: Shared<Rules>,
    weight: u64,
) -> Result<ReplyBody, AllocError>
    requires kept { IsKept state.old }
    requires after { IsBefore stamp.turn state.old.entries.items }
    requires number { IfSome number (λ n. (1 ≤ n) × (n ≤ length state.old.projects.items)) }
    ensures reply { let outcome = in_project number
        (changed (settings_of state.old) state.old.entries.items (Change.SetRules rules weight)) in
        IfOk result (λ body. body ≡ body_of state.old.entries.items outcome) }
    ensures added { let outcome = in_project number
        (changed (settings_of state.old) state.old.entries.items (Change.SetRules rules weight)) in
        OnOk result (state.new.entries.items ≡ state.old.entries.items ++ listed (entry_by stamp outcome)) }
    ensures settings { settings_of state.new ≡ settings_of state.old }
    ensures kept { IsKept state.new }
    ensures err { OnErr result (state.new.entries.items ≡ state.old.entries.items) }
{
    let Some(number) = number else {
        return Ok(ReplyBody::Refused(BookFault::NoProject));
    };
    let alloc = *state.entries.allocator();
    let project = state.project(number);
    let before = project.newest_version();
    let next = before.snapshot().get().with_rules(alloc, rules.share()?)?;
    let snapshot = Shared::new(alloc, next)?;
    let change = Change::SetRules { rules, weight };
    match make_version(state, number, stamp, change, snapshot, 0, weight)? {
        Some(fault) => Ok(ReplyBody::Refused(fault)),
        None => Ok(whole_version_made(state, number)),
    }
}
