//! The words of `serve`.
ghost use Rattle.std.specs.Prelude.{◌≡◌, ◌≤◌, option_map, IfOk, IfSome};
ghost use Rattle.clap.specs.Words.{app_of, found_of, rows_of};
ghost use Rattle.server_commands.specs.ReplayWords.{IsCount};
ghost use Rattle.server_commands.specs.ServeWords.{serve_command, number_or, addr_said, all_counted, counts_said};
ghost use Rattle.server_commands.specs.ServeWords.{serve_said, serve_words, IsServe};

use crate::replay_words::projects_said;
use bim_model::Text;
use clap::{ArgMatches, Command};
use command_words::{lent_words, number_word, parse, plain_command, with_option};
use std::alloc::{AllocError, Global};

/// The most lanes that words may say.
pub const MOST_LANES: u32 = 32;

/// The most workers that words may say.
pub const MOST_WORKERS: u32 = 8;

/// The most connections of a lane that words may say.
pub const MOST_LINKS: u64 = 1_000_000;

/// What the words of `serve` count.
#[derive(Clone, Copy, Debug, PartialEq, Eq)]
pub struct ServeCounts {
    /// How many connections are served at once: 1 to 32.
    pub lanes: u32,
    /// How many workers check buckets: 1 to 8.
    pub workers: u32,
    /// How many connections a lane serves before it ends, at most 1,000,000; 0 is no limit.
    pub links: u64,
    /// How many projects there are: 1 to 8.
    pub projects: u32,
}

/// What the words of `serve` say.
#[derive(Drop)]
pub struct ServeWords {
    /// The address of the listening socket.
    pub addr: Text,
    pub counts: ServeCounts,
}

// The command `serve`, of the words after its name, without help.
fn serve_command<'a>(alloc: Global) -> Result<Command<'a>, AllocError>
    ensures { IfOk result (λ command. app_of command ≡ serve_command) }
{
    let plain = plain_command(alloc, "serve");
    let bound = with_option(alloc, plain, "addr")?;
    let laned = with_option(alloc, bound, "lanes")?;
    let worked = with_option(alloc, laned, "workers")?;
    let limited = with_option(alloc, worked, "links")?;
    with_option(alloc, limited, "projects")
}

// The number of an option, or the other one where the option isn't there.
fn number_or(least: u64, most: u64, other: u64, text: Option<&str>) -> Option<u64>
    requires low { least ≤ other }
    requires high { other ≤ most }
    ensures said { result ≡ number_or least most other (option_map (λ s. s.now) text.entry) }
    ensures low { IfSome result (λ n. least ≤ n) }
    ensures high { IfSome result (λ n. n ≤ most) }
{
    match text {
        Some(text) => number_word(least, most, text),
        None => Some(other),
    }
}

// The address, 127.0.0.1:8080 where it isn't said.
fn addr_said(alloc: Global, text: Option<&str>) -> Result<Text, AllocError>
    ensures { IfOk result (λ addr. addr ≡ addr_said (option_map (λ s. s.now) text.entry)) }
{
    match text {
        Some(text) => Text::of(alloc, text),
        None => Text::of(alloc, "127.0.0.1:8080"),
    }
}

fn all_counted(
    lanes: Option<u64>,
    workers: Option<u64>,
    links: Option<u64>,
    projects: Option<u32>,
) -> Option<ServeCounts>
    requires some_lanes { IfSome lanes (λ n. 1 ≤ n) }
    requires few_lanes { IfSome lanes (λ n. n ≤ MOST_LANES) }
    requires few_workers { IfSome workers (λ n. n ≤ MOST_WORKERS) }
    requires count { IfSome projects IsCount }
    ensures said { result ≡ all_counted lanes workers links projects }
    ensures serve { IfSome result IsServe }
{
    match (lanes, workers, links, projects) {
        (Some(lanes), Some(workers), Some(links), Some(projects)) => Some(ServeCounts {
            lanes: lanes as u32,
            workers: workers as u32,
            links,
            projects,
        }),
        _ => None,
    }
}

fn counts_said(matches: &ArgMatches<'_>) -> Option<ServeCounts>
    ensures said { result ≡ counts_said (rows_of (found_of matches.now)) }
    ensures serve { IfSome result IsServe }
{
    let lanes = number_or(1, MOST_LANES as u64, 2, matches.get_str("lanes"));
    let workers = number_or(1, MOST_WORKERS as u64, 1, matches.get_str("workers"));
    let links = number_or(0, MOST_LINKS, 0, matches.get_str("links"));
    let projects = projects_said(matches.get_str("projects"));
    all_counted(lanes, workers, links, projects)
}

fn serve_said(alloc: Global, matches: &ArgMatches<'_>) -> Result<Option<ServeWords>, AllocError>
    ensures said { IfOk result (λ said. said ≡ serve_said (rows_of (found_of matches.now))) }
    ensures serve { IfOk result (λ said. IfSome said (λ words. IsServe words.counts)) }
{
    let Some(counts) = counts_said(matches) else {
        return Ok(None);
    };
    let addr = addr_said(alloc, matches.get_str("addr"))?;
    Ok(Some(ServeWords { addr, counts }))
}

/// What the words after `serve` say, where they are in its grammar: `--addr TEXT` for the address, `--lanes N`, from 1 to
/// 32, `--workers N`, from 1 to 8, `--links N`, at most 1,000,000, and `--projects N`, from 1 to 8, in any order, each at
/// most once, also spelled `--addr=TEXT`. A number is 1 to 20 digits. Without them there are the address 127.0.0.1:8080, two
/// lanes, one worker, no limit of connections and one project.
pub fn serve_words(alloc: Global, words: &[Text]) -> Result<Option<ServeWords>, AllocError>
    ensures words { IfOk result (λ said. said ≡ serve_words words.now) }
    ensures serve { IfOk result (λ said. IfSome said (λ words. IsServe words.counts)) }
{
    let command = serve_command(alloc)?;
    let lent = lent_words(alloc, words)?;
    match parse(command, lent.as_slice())? {
        Some(matches) => serve_said(alloc, &matches),
        None => Ok(None),
    }
}
