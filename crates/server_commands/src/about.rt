//! What the program says of itself: its version, and its help.
ghost use Rattle.std.specs.Prelude.{◌≡◌};
ghost use Rattle.bim_io.specs.Causes.{Rose};
ghost use Rattle.server_commands.specs.Commands.{PrintsText, PrintsAlone};

use batch_commands::print_usage;
use bim_io::{Sink, write_whole};
use bim_model::Text;

/// The line of the version. The Makefile and CHANGELOG.md say the same number, and `lint.version_number` compares them.
pub const VERSION_LINE: &str = "bim_server 0.9.0\n";

/// What each command is for and its words, the exit statuses, and where the documentation is.
pub const HELP: &str = "\
bim_server: a coordination server for building models. IFC4 files in, clashes
and BCF topics out, over HTTP and JSON.

  bim_server serve [--addr ADDRESS:PORT] [--lanes N] [--workers N] [--links N]
                   [--projects N]
      Serves at the address, 127.0.0.1:8080 if none is given, until it is
      stopped or each lane has served as many connections as --links says.
  bim_server replay [--buckets N] [--at SECONDS] [--projects N]
      Answers a recorded HTTP session: requests from standard input, responses
      to standard output.
  bim_server check --rules FILE [--grid exact|snap] NAME=FILE ..
      Prints the clashes of IFC files under a file of rules, one a line.
  bim_server generate --count N [--number N] [--file]
      Makes up a model of N cuboids and prints how much it has, or with --file
      the model as an IFC file.
  bim_server --version
  bim_server --help

Exit statuses: 0 done, 2 other words than these, 3 refused by check, 4 a file,
the input or the address failed, 5 a write failed, 6 out of memory, 7 a session
or a lane could not go on.
More: man bim_server, and API.md (words, requests, statuses) and OPERATIONS.md
(running it for an office) in docs/ or /usr/share/doc/yulfrets.
";

/// The exit status where a write failed.
const NO_WRITE: u8 = 5;

// Prints a text.
fn print_text<K: Sink>(text: &str, sink: &mut K) -> u8
    ensures { PrintsText text.now (K.seen sink.old) (K.seen sink.new) result }
{
    match write_whole(sink, text.as_bytes()) {
        Ok(()) => 0,
        Err(_) => NO_WRITE,
    }
}

/// Prints a text where no words stand after the command, else the usage line.
pub fn print_alone<K: Sink>(words: &[Text], text: &str, sink: &mut K) -> u8
    ensures does { PrintsAlone words.now text.now (K.seen sink.old) (K.seen sink.new) result }
    ensures write { result ≡ 5 → Rose (K.seen sink.old).faults (K.seen sink.new).faults }
{
    match words {
        [] => print_text(text, sink),
        _ => print_usage(sink),
    }
}
