//! Does what `pict` does, with its output, its reports and its status, and tells more: of a refusal the line of the text with a
//! caret, which tokens could stand there, and what may be meant; of a run that has ended who waits in vain, and where; and of an
//! accepted text that is checked which names are never used, and on which channels nobody receives, or nobody sends.
//!
//! Its words are those of `pict`. Each text is read once, so that report and explanation speak of the same bytes. With the words
//! `mistakes FILE` it tells of each text of a file what is reported and told of it: a line that begins with `== ` and has a
//! name begins a text, which stands behind the prelude if the word `prelude` follows the name; behind the word `run` it is
//! told who waits in vain at the end of the text's run, and behind the word `channels` what its channels are called. With the words
//! `channels [--bare] FILE` it does what `check` does, and writes what the channels of an accepted file's run are called.
#![tactic(auto)]

mod certain;
mod mistakes;

ghost use Rattle.pict_core.specs.Plain.{plain_core};
ghost use Rattle.pict_core.specs.Closed.{IsClosed};
ghost use Rattle.pict_view.specs.Right.{RunsRight};
ghost use Rattle.pict_report.specs.Reports.{AreShort};

use anyhow::Error;
use certain::told_certain;
use mistakes::tell_mistakes;
use pict_front::{Front, FrontError};
use pict_outside::{FolderShelf, StreamSink};
use pict_syntax::{Code, Sources};
use pict_telling::{phases, shelf_of, told_at_end, told_channels, told_of_refusal};
use pict_top::{Command, Options, Status, pict, words_of};
use std::env;
use std::io::Write;
use std::process::ExitCode;

/// What is told of a file whose words are done.
#[derive(Clone, Copy, PartialEq, Eq, Debug)]
enum More {
    Nothing,
    Certain,
    WhoWaits,
    Channels,
}

/// Does what the words ask for, over the files of the system.
fn do_plainly(rt: &HostRuntime, words: &[&str]) -> Status {
    let mut shelf = FolderShelf::new(rt);
    let mut out = StreamSink::new(rt.stdout());
    let mut err = StreamSink::new(rt.stderr());
    pict(rt.alloc(), words, &mut shelf, &mut out, &mut err)
}

/// Does what the words ask for, over the texts that were read.
fn do_with(rt: &HostRuntime, words: &[&str], sources: &Sources) -> Result<Status, Error> {
    let mut shelf = shelf_of(rt.alloc(), sources)?;
    let mut out = StreamSink::new(rt.stdout());
    let mut err = StreamSink::new(rt.stderr());
    Ok(pict(rt.alloc(), words, &mut shelf, &mut out, &mut err))
}

/// Tells more of an accepted file.
fn tell_more(
    rt: &HostRuntime,
    more: More,
    options: Options<'_>,
    sources: &Sources,
    front: Front,
) -> Result<(), Error>
    requires short { AreShort sources.now.list.items }
    requires closed { IsClosed (plain_core front.core) }
    requires right { RunsRight (plain_core front.core) 10000 }
{
    let Options { bare, file, .. } = options;
    match more {
        More::Nothing => {}
        More::Certain => {
            let mut shelf = shelf_of(rt.alloc(), sources)?;
            let text = told_certain(rt.alloc(), bare, file, &mut shelf)?;
            rt.stderr().write_all(&text)?;
        }
        More::WhoWaits => {
            let text = told_at_end(rt.alloc(), bare, file, sources, front)?;
            rt.stderr().write_all(&text)?;
        }
        More::Channels => {
            let text = told_channels(rt.alloc(), bare, file, sources, front)?;
            rt.stdout().write_all(&text)?;
        }
    }
    Ok(())
}

/// Does what the words ask for of a file, and tells of a refusal, or else more.
fn do_file(
    rt: &HostRuntime,
    words: &[&str],
    options: Options<'_>,
    more: More,
) -> Result<Status, Error> {
    let mut folder = FolderShelf::new(rt);
    let mut sources = Sources::new(rt.alloc());
    match phases(
        rt.alloc(),
        options.bare,
        options.file,
        &mut folder,
        &mut sources,
    ) {
        Ok(front) => {
            let status = do_with(rt, words, &sources)?;
            if status == Status::Done {
                tell_more(rt, more, options, &sources, front)?;
            }
            Ok(status)
        }
        Err(FrontError::Named(Code::B1, _)) => Ok(do_plainly(rt, words)),
        Err(FrontError::Named(code, place)) => {
            let status = do_with(rt, words, &sources)?;
            let Options { bare, file, .. } = options;
            let more = told_of_refusal(rt.alloc(), bare, file, &sources, code, place)?;
            rt.stderr().write_all(&more)?;
            Ok(status)
        }
        Err(_) => Ok(do_plainly(rt, words)),
    }
}

/// Does what the words ask for.
fn do_words(rt: &HostRuntime, words: &[&str]) -> Result<Status, Error> {
    if let [first, file] = words {
        if *first == "mistakes" {
            return tell_mistakes(rt, file);
        }
    }
    if let [first, rest @ ..] = words {
        if *first == "channels" {
            return do_channels(rt, rest);
        }
    }
    match words_of(words) {
        Ok(Command::Run(options)) => do_file(rt, words, options, More::WhoWaits),
        Ok(Command::Check(options)) => do_file(rt, words, options, More::Certain),
        Ok(Command::Trace(options) | Command::Code(options)) => {
            do_file(rt, words, options, More::Nothing)
        }
        _ => Ok(do_plainly(rt, words)),
    }
}

/// Does what `check` does with these words behind it, and writes what the channels of an accepted file's run are called.
fn do_channels(rt: &HostRuntime, rest: &[&str]) -> Result<Status, Error> {
    let mut words = Vec::new(rt.alloc());
    words.push("check")?;
    for word in rest {
        words.push(*word)?;
    }
    match words_of(&words) {
        Ok(Command::Check(options)) => do_file(rt, &words, options, More::Channels),
        _ => Ok(do_plainly(rt, &words)),
    }
}

/// Collects the words, and does what they ask for.
fn run(rt: &HostRuntime) -> Result<Status, Error> {
    let mut texts = Vec::new(rt.alloc());
    for word in env::args(rt)?.skip(1) {
        texts.push(word)?;
    }
    let mut words = Vec::new(rt.alloc());
    for text in &texts {
        words.push(text.as_str())?;
    }
    do_words(rt, &words)
}

fn main(rt: HostRuntime) -> Result<ExitCode, Error> {
    Ok(ExitCode::from(run(&rt)?.number()))
}
