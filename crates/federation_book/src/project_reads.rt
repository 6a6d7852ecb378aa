//! What is read of a project.
ghost use Rattle.std.specs.Prelude.{◌≡◌, ◌≤◌, ◌<◌, ◌+◌, ◌^◌, ◌∷◌, [], length, IfOk, IfSome};
ghost use Rattle.book_history.specs.Projects.{ProjectState};
ghost use Rattle.book_history.specs.Refusals.{project_of, wanted_in, first_of, not_yet, dropped};
ghost use Rattle.book_history.specs.Requests.{in_project, version_read, clashes_read, body_of};
ghost use Rattle.federation_book.specs.KeptProjects.{KeepsProject, IsKept, settings_of};

use crate::project::Project;
use crate::state::State;
use bim_model::id_of;
use book_history::{BookFault, LIVE_VERSIONS, ReplyBody, Wanted};
use std::alloc::AllocError;

/// The number of the project that has the identifier, from 1.
pub fn project_of(projects: usize, id: u128) -> Option<u32>
    ensures { result ≡ project_of projects id }
{
    let number = (id >> 96) as u32;
    if id == id_of(number, 0) && number > 0 && number as usize <= projects {
        Some(number)
    } else {
        None
    }
}

// The number of the version that is asked for.
fn number_of(project: &Project, wanted: Wanted) -> u64
    ensures { (s : ProjectState) → KeepsProject project.now s → result ≡ wanted_in s wanted }
{
    match wanted {
        Wanted::Newest => project.newest,
        Wanted::Number(number) => number,
    }
}

// Why the version of a number isn't there.
fn not_there(project: &Project, number: u64) -> Option<BookFault>
    requires { project.now.newest < 2 ^ 63 }
    ensures { (s : ProjectState) → KeepsProject project.now s
        → result ≡ first_of (not_yet s number ∷ dropped s number ∷ []) }
{
    let newest = project.newest;
    if number > newest {
        return Some(BookFault::NoVersion { newest });
    }
    dropped(project, number)
}

/// The version of a number that is made isn't one of the last sixteen.
pub fn dropped(project: &Project, number: u64) -> Option<BookFault>
    requires few { project.now.newest < 2 ^ 63 }
    requires made { number ≤ project.now.newest }
    ensures { (s : ProjectState) → KeepsProject project.now s → result ≡ dropped s number }
{
    let newest = project.newest;
    if number + LIVE_VERSIONS <= newest {
        Some(BookFault::VersionDropped {
            version: number,
            newest,
        })
    } else {
        None
    }
}

/// The place of a live version among those that are kept.
pub fn place_of(project: &Project, number: u64) -> usize
    requires made { number ≤ project.now.newest }
    requires live { project.now.newest < number + length project.now.live.items }
    ensures { result + project.now.newest + 1 ≡ number + length project.now.live.items }
{
    project.live.len() - 1 - (project.newest - number) as usize
}

/// What a version of the project of this number holds.
pub fn read_version(
    state: &State,
    number: Option<u32>,
    wanted: Wanted,
) -> Result<ReplyBody, AllocError>
    requires kept { IsKept state.now }
    requires number { IfSome number (λ n. (1 ≤ n) × (n ≤ length state.now.projects.items)) }
    ensures { let outcome = in_project number (version_read state.now.entries.items wanted) in
        IfOk result (λ body. body ≡ body_of state.now.entries.items outcome) }
{
    let Some(number) = number else {
        return Ok(ReplyBody::Refused(BookFault::NoProject));
    };
    let project = state.project(number);
    let version = number_of(project, wanted);
    if let Some(fault) = not_there(project, version) {
        return Ok(ReplyBody::Refused(fault));
    }
    let kept = &project.live[place_of(project, version)];
    Ok(ReplyBody::Version {
        version,
        newest: project.newest,
        snapshot: kept.snapshot().share()?,
    })
}

/// The clashes of a version of the project of this number. It keeps them from then on.
pub fn read_clashes(
    state: &mut State,
    number: Option<u32>,
    wanted: Wanted,
    first: u64,
    count: u64,
) -> Result<ReplyBody, AllocError>
    requires kept { IsKept state.old }
    requires number { IfSome number (λ n. (1 ≤ n) × (n ≤ length state.old.projects.items)) }
    ensures reply { let outcome = in_project number
        (clashes_read state.old.entries.items wanted first count) in
        IfOk result (λ body. body ≡ body_of state.old.entries.items outcome) }
    ensures entries { state.new.entries.items ≡ state.old.entries.items }
    ensures settings { settings_of state.new ≡ settings_of state.old }
    ensures kept { IsKept state.new }
{
    let Some(number) = number else {
        return Ok(ReplyBody::Refused(BookFault::NoProject));
    };
    let alloc = *state.entries.allocator();
    let project = state.project(number);
    let version = number_of(project, wanted);
    if let Some(fault) = not_there(project, version) {
        return Ok(ReplyBody::Refused(fault));
    }
    let place = place_of(project, version);
    let left = project.live[place].left();
    if left > 0 {
        return Ok(ReplyBody::Refused(BookFault::Pending { version, left }));
    }
    let project = &mut state.projects[number as usize - 1];
    let set = project.live[place].clashes(alloc)?;
    Ok(ReplyBody::Clashes {
        version,
        set,
        first,
        count,
    })
}
