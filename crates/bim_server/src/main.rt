//! The coordination server for building models.
#![tactic(auto)]

use bim_files::StdFiles;
use bim_io::{StdSink, StdSource, SystemClock};
use bim_model::Text;
use bim_sockets::NetHost;
use server_commands::run;
use std::alloc::AllocError;
use std::env;
use std::io::{self, ErrorKind};
use std::process::ExitCode;

// The words after the program's name; none where one of them is no UTF-8.
fn words_of(rt: &HostRuntime) -> io::Result<Vec<Text>> {
    let alloc = rt.alloc();
    let mut words = Vec::new(alloc);
    match env::args(rt) {
        Ok(args) => {
            for word in args.skip(1) {
                words.push(Text::of(alloc, word.as_str())?)?;
            }
        }
        Err(error) => {
            if error.kind() != ErrorKind::InvalidData {
                return Err(error);
            }
        }
    }
    Ok(words)
}

fn main(rt: HostRuntime) -> ExitCode {
    let Ok(words) = words_of(&rt) else {
        return ExitCode::from(6);
    };
    let mut source = StdSource::new(rt.reader());
    let mut sink = StdSink::new(io::writer(&rt));
    let mut files = StdFiles::new(rt);
    let mut clock = SystemClock::new(rt);
    let alloc = rt.alloc();
    let mut host = NetHost::new(alloc, rt);
    let ended = run(
        &rt,
        alloc,
        words.as_slice(),
        &mut source,
        &mut sink,
        &mut files,
        &mut clock,
        &mut host,
    );
    ExitCode::from(ended.status)
}
