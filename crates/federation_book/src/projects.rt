//! Which projects there are.
ghost use Rattle.std.specs.Prelude.{◌≡◌, ◌≤◌, IfOk};
ghost use Rattle.book_history.specs.declared.limits.TheConstants.{MOST_PROJECTS};
ghost use Rattle.book_history.specs.History.{project_numbers};
ghost use Rattle.book_history.specs.Requests.{outcome_of};
ghost use Rattle.federation_book.specs.KeptProjects.{IsKept, settings_of};
ghost use Rattle.federation_book.specs.inner.Done.{IsTold};

use crate::state::State;
use bim_model::Items;
use book_history::{BookFault, BookRequest, ReplyBody};
use std::alloc::{AllocError, Global};

// The numbers of so many projects, from 1.
fn numbers_of(alloc: Global, projects: u32) -> Result<Items<u32>, AllocError>
    requires { projects ≤ MOST_PROJECTS }
    ensures { IfOk result (λ numbers. numbers ≡ project_numbers projects) }
{
    let mut numbers = Items::new(alloc);
    for index in 0..projects {
        numbers.push(index + 1)?;
    }
    Ok(numbers)
}

/// The numbers of the projects.
pub fn list_projects(state: &State) -> Result<ReplyBody, AllocError>
    requires { IsKept state.now }
    ensures { IfOk result (IsTold state.now.entries.items
        (outcome_of (settings_of state.now) state.now.entries.items
        (BookRequest.ListProjects))) }
{
    let alloc = *state.entries.allocator();
    let numbers = numbers_of(alloc, state.projects.len() as u32)?;
    Ok(ReplyBody::Projects(numbers))
}

/// The number of a project.
pub fn read_project(state: &State, project: u128) -> Result<ReplyBody, AllocError>
    requires { IsKept state.now }
    ensures { IfOk result (IsTold state.now.entries.items
        (outcome_of (settings_of state.now) state.now.entries.items
        (BookRequest.ReadProject project))) }
{
    match state.number_of(project) {
        Some(number) => Ok(ReplyBody::Project(number)),
        None => Ok(ReplyBody::Refused(BookFault::NoProject)),
    }
}
