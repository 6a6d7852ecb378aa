//! The words of the command line. A parser of command lines takes them apart; what their values say is judged here.
ghost use Rattle.std.specs.Prelude.{◌≡◌, option_map, IfOk, IfSome};
ghost use Rattle.clap.specs.Words.{app_of, found_of, rows_of};
ghost use Rattle.server_commands.specs.ReplayWords.{replay_command, time_said, buckets_said, projects_said, all_said};
ghost use Rattle.server_commands.specs.ReplayWords.{replay_said, replay_words, IsTime, IsCount, IsReplay};

use bim_model::{Moment, Text};
use book_history::MOST_PROJECTS;
use clap::{ArgMatches, Command};
use command_words::{lent_words, number_word, parse, plain_command, with_option};
use std::alloc::{AllocError, Global};

/// The most buckets that words may say.
pub const MOST_BUCKETS: u64 = 1_000_000;

/// What time it is for a replay.
#[derive(Clone, Copy, Debug, PartialEq, Eq)]
pub enum Time {
    /// What the clock gives.
    OfClock,
    /// Always this moment, in seconds since 1970.
    At(u64),
}

/// What the words of `replay` say.
#[derive(Clone, Copy, Debug, PartialEq, Eq)]
pub struct ReplayWords {
    pub time: Time,
    /// How many buckets are worked after each answered request, at most 1,000,000; all where it isn't said.
    pub buckets: Option<u64>,
    /// How many projects there are: 1 to 8.
    pub projects: u32,
}

// The command `replay`, of the words after its name, without help.
fn replay_command<'a>(alloc: Global) -> Result<Command<'a>, AllocError>
    ensures { IfOk result (λ command. app_of command ≡ replay_command) }
{
    let plain = plain_command(alloc, "replay");
    let timed = with_option(alloc, plain, "at")?;
    let worked = with_option(alloc, timed, "buckets")?;
    with_option(alloc, worked, "projects")
}

fn time_said(text: Option<&str>) -> Option<Time>
    ensures said { result ≡ time_said (option_map (λ s. s.now) text.entry) }
    ensures time { IfSome result IsTime }
{
    let Some(text) = text else {
        return Some(Time::OfClock);
    };
    match number_word(0, Moment::LAST, text) {
        Some(moment) => Some(Time::At(moment)),
        None => None,
    }
}

pub(crate) fn projects_said(text: Option<&str>) -> Option<u32>
    ensures said { result ≡ projects_said (option_map (λ s. s.now) text.entry) }
    ensures count { IfSome result IsCount }
{
    let Some(text) = text else {
        return Some(1);
    };
    match number_word(1, MOST_PROJECTS as u64, text) {
        Some(number) => Some(number as u32),
        None => None,
    }
}

// How many buckets are worked, all where it isn't said.
fn buckets_said(text: Option<&str>) -> Option<Option<u64>>
    ensures { result ≡ buckets_said (option_map (λ s. s.now) text.entry) }
{
    let Some(text) = text else {
        return Some(None);
    };
    match number_word(0, MOST_BUCKETS, text) {
        Some(number) => Some(Some(number)),
        None => None,
    }
}

fn all_said(
    time: Option<Time>,
    buckets: Option<Option<u64>>,
    projects: Option<u32>,
) -> Option<ReplayWords>
    requires time { IfSome time IsTime }
    requires count { IfSome projects IsCount }
    ensures said { result ≡ all_said time buckets projects }
    ensures replay { IfSome result IsReplay }
{
    match (time, buckets, projects) {
        (Some(time), Some(buckets), Some(projects)) => Some(ReplayWords {
            time,
            buckets,
            projects,
        }),
        _ => None,
    }
}

fn replay_said(matches: &ArgMatches<'_>) -> Option<ReplayWords>
    ensures said { result ≡ replay_said (rows_of (found_of matches.now)) }
    ensures replay { IfSome result IsReplay }
{
    let time = time_said(matches.get_str("at"));
    let buckets = buckets_said(matches.get_str("buckets"));
    let projects = projects_said(matches.get_str("projects"));
    all_said(time, buckets, projects)
}

/// What the words after `replay` say, where they are in its grammar: `--at N` for a moment, at most 253,402,207,200,
/// `--buckets N` for the work after each answer, at most 1,000,000, and `--projects N`, from 1 to 8, in any order, each at most once, also spelled `--at=N`. A number is 1 to 20 digits.
pub fn replay_words(alloc: Global, words: &[Text]) -> Result<Option<ReplayWords>, AllocError>
    ensures words { IfOk result (λ said. said ≡ replay_words words.now) }
    ensures replay { IfOk result (λ said. IfSome said IsReplay) }
{
    let command = replay_command(alloc)?;
    let lent = lent_words(alloc, words)?;
    match parse(command, lent.as_slice())? {
        Some(matches) => Ok(replay_said(&matches)),
        None => Ok(None),
    }
}
