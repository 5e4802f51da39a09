//! The program `pict`: the top call over the files of the system, the standard output and the standard error.
#![tactic(auto)]

use pict_outside::{FolderShelf, StreamSink};
use pict_top::{Status, pict};
use std::process::ExitCode;
use std::{env, io};

/// Collects the words and calls `pict`. Where there is no memory for them the status is `Memory`, and where a word
/// isn't UTF-8 it is `Usage`, with no text.
fn run(rt: &HostRuntime) -> Status {
    let alloc = rt.alloc();
    let args = match env::args(rt) {
        Ok(args) => args,
        Err(error) => {
            return match error.kind() {
                io::ErrorKind::OutOfMemory => Status::Memory,
                _ => Status::Usage,
            };
        }
    };
    let mut texts = Vec::new(alloc);
    for arg in args.skip(1) {
        if texts.push(arg).is_err() {
            return Status::Memory;
        }
    }
    let mut words = Vec::new(alloc);
    for text in &texts {
        if words.push(text.as_str()).is_err() {
            return Status::Memory;
        }
    }
    let mut shelf = FolderShelf::new(rt);
    let mut out = StreamSink::new(rt.stdout());
    let mut err = StreamSink::new(rt.stderr());
    pict(alloc, &words, &mut shelf, &mut out, &mut err)
}

fn main(rt: HostRuntime) -> ExitCode {
    ExitCode::from(run(&rt).number())
}
