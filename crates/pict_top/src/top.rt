// The top call: what the words ask for, done over a shelf and two sinks.
ghost use Rattle.std.specs.Prelude.{◌≡◌, ◌≤◌, ◌⊎◌, Some};
ghost use Rattle.pict_outside.specs.Counts.{Rose};
ghost use Rattle.pict_core.specs.Closed.{IsClosed};
ghost use Rattle.pict_core.specs.Plain.{plain_core};
ghost use Rattle.pict_front.specs.Answers.{plain_front};
ghost use Rattle.pict_front.specs.Laws.{IsAccepted};
ghost use Rattle.pict_gather.specs.Fetching.{MayGive};
ghost use Rattle.pict_object.specs.Cores.{IsObjectCore};
ghost use Rattle.pict_words.specs.Plain.{plain_command, texts_of};
ghost use Rattle.pict_words.specs.Words.{HasNoShape, IsSiteCount, fuel_of, sites_of};
ghost use Rattle.pict_report.specs.Reports.{AreShort, line, position_of, refusal_report, trap_report, usage_report};
ghost use Rattle.pict_top.specs.Changes.{change_of, Untouched};
ghost use Rattle.pict_top.specs.Headline.{Headline, shelf_change};
ghost use Rattle.pict_top.specs.Meets.{Meets, Reports, EndReports, Tells};
ghost use Rattle.pict_top.specs.Origins as origins;
ghost use Rattle.pict_top.specs.Origins.{IsOwn, MayGiveText, TakesText, Works, given, given_each, only, origin_of, own_length};
ghost use Rattle.pict_top.specs.Outcome as outcomes;
ghost use Rattle.pict_top.specs.Owed.{FaultsCommand, FaultsFile, FaultsText, FaultsWords, Owes, OwesMade, OwesText, OwesWithEach, OwesWords, OwesWork};

use crate::objects::{build_object, execute_object};
use crate::one_shelf::OneShelf;
use crate::origin::{builds, name_of, object_of, own_text, prelude_of, trace_of};
use crate::replaying::replay_over;
use crate::status::Status;
use crate::work::perform;
use pict_front::{Front, FrontError, front};
use pict_machine::{End, RunError};
use pict_outside::{Shelf, Sink, SinkFailed};
use pict_report as report;
use pict_syntax::{Code, FUEL_LIMIT, Sources, Span};
use pict_words::{Command, Usage, words_of};
use std::alloc::{AllocError, Global};

/// Does what the words ask for, and answers how it ended.
///
/// It reads the file from the shelf, and each text that the file reaches by its imports, and checks them, behind the prelude unless
/// they are to stand alone. A text is read once; a report names the text in which its place is. `check` ends there.
/// `run` runs the program and writes what it prints on `out`, each printing that isn't empty in one write right after its step;
/// `trace` writes a line for each communication and each printing, each in one write right after its step; `code` runs nothing,
/// and writes the listing of the program's instructions, each line in one write. `load` reads no file: it makes a program from a
/// number, runs it, and writes a summary, each line in one write. `pick` runs the program with choices from a seed, and writes
/// what it prints as `run` does; `picked` runs it twice, and writes a line for each of these choices, the line `trace`, and then
/// the lines that `trace` would write of this run, each in one write. `replay` reads a second file, once the first is accepted, and
/// says in one write whether it is such a choice of steps and such a trace of this program, or the first step that is at fault.
/// `build` writes the object of the program's core process, in one write; `exec` reads no program but such an object, and runs it as
/// `run` does, up to a step that is wrong. The text of the status, if it has one, is written on `err` in one write.
pub fn pict<S: Shelf, O: Sink, E: Sink>(
    alloc: Global,
    words: &[&str],
    shelf: &mut S,
    out: &mut O,
    err: &mut E,
) -> Status
    ensures headline { Headline (texts_of words.now) (shelf_change S.held S.faults S.misses shelf.old shelf.new)
        (change_of O.taken O.faults out.old out.new) (change_of E.taken E.faults err.old err.new) result }
    ensures held { S.held shelf.new ≡ S.held shelf.old }
    ensures counts { (S.faults shelf.old ≤ S.faults shelf.new) × (S.misses shelf.old ≤ S.misses shelf.new)
        × (O.faults out.old ≤ O.faults out.new) × (E.faults err.old ≤ E.faults err.new) }
{
    do_words(alloc, words, shelf, out, err)
}

/// Does what the words ask for.
fn do_words<S: Shelf, O: Sink, E: Sink>(
    alloc: Global,
    words: &[&str],
    shelf: &mut S,
    out: &mut O,
    err: &mut E,
) -> Status
    ensures meets { Meets (OwesWords (texts_of words.now) (S.held shelf.old)) (FaultsWords (texts_of words.now) (S.held shelf.old))
        (Rose (S.faults shelf.old) (S.faults shelf.new)) (change_of O.taken O.faults out.old out.new) (change_of E.taken E.faults err.old err.new) result }
    ensures usage { HasNoShape (texts_of words.now) → Untouched (change_of O.taken O.faults out.old out.new)
        × Tells Status.Usage usage_report (change_of E.taken E.faults err.old err.new) result }
    ensures each { Meets (OwesWithEach (texts_of words.now) (S.held shelf.old)) (FaultsWords (texts_of words.now) (S.held shelf.old))
        (Rose (S.faults shelf.old) (S.faults shelf.new)) (change_of O.taken O.faults out.old out.new) (change_of E.taken E.faults err.old err.new) result
        ⊎ Rose (S.misses shelf.old) (S.misses shelf.new) }
    ensures held { S.held shelf.new ≡ S.held shelf.old }
    ensures counts { (S.faults shelf.old ≤ S.faults shelf.new) × (S.misses shelf.old ≤ S.misses shelf.new)
        × (O.faults out.old ≤ O.faults out.new) × (E.faults err.old ≤ E.faults err.new) }
{
    match words_of(words) {
        Err(Usage) => tell(report::USAGE, Status::Usage, err),
        Ok(command) => do_command(alloc, command, shelf, out, err),
    }
}

/// Does what a command does, with an object, or with a text.
fn do_command<S: Shelf, O: Sink, E: Sink>(
    alloc: Global,
    command: Command<'_>,
    shelf: &mut S,
    out: &mut O,
    err: &mut E,
) -> Status
    requires fuel { fuel_of (plain_command command) ≤ FUEL_LIMIT }
    requires sites { IsSiteCount (sites_of (plain_command command)) }
    ensures meets { Meets (Owes (given (S.held shelf.old) (origin_of (plain_command command.entry))) (plain_command command.entry))
        (FaultsCommand (S.held shelf.old) (plain_command command.entry)) (Rose (S.faults shelf.old) (S.faults shelf.new))
        (change_of O.taken O.faults out.old out.new) (change_of E.taken E.faults err.old err.new) result }
    ensures each { Meets (Owes (given_each (S.held shelf.old) (origin_of (plain_command command.entry))) (plain_command command.entry))
        (FaultsCommand (S.held shelf.old) (plain_command command.entry)) (Rose (S.faults shelf.old) (S.faults shelf.new))
        (change_of O.taken O.faults out.old out.new) (change_of E.taken E.faults err.old err.new) result
        ⊎ Rose (S.misses shelf.old) (S.misses shelf.new) }
    ensures held { S.held shelf.new ≡ S.held shelf.old }
    ensures counts { (S.faults shelf.old ≤ S.faults shelf.new) × (S.misses shelf.old ≤ S.misses shelf.new)
        × (O.faults out.old ≤ O.faults out.new) × (E.faults err.old ≤ E.faults err.new) }
{
    match object_of(command) {
        Some((object, fuel)) => execute_object(alloc, object, fuel, shelf, out, err),
        None => do_text(alloc, command, shelf, out, err),
    }
}

/// Does what a command does, with its own text or with a file.
fn do_text<S: Shelf, O: Sink, E: Sink>(
    alloc: Global,
    command: Command<'_>,
    shelf: &mut S,
    out: &mut O,
    err: &mut E,
) -> Status
    requires takes { TakesText (plain_command command) }
    requires fuel { fuel_of (plain_command command) ≤ FUEL_LIMIT }
    requires sites { IsSiteCount (sites_of (plain_command command)) }
    ensures meets { Meets (OwesText (given (S.held shelf.old) (origin_of (plain_command command.entry))) (plain_command command.entry))
        (FaultsText (S.held shelf.old) (plain_command command.entry)) (Rose (S.faults shelf.old) (S.faults shelf.new))
        (change_of O.taken O.faults out.old out.new) (change_of E.taken E.faults err.old err.new) result }
    ensures each { Meets (OwesText (given_each (S.held shelf.old) (origin_of (plain_command command.entry))) (plain_command command.entry))
        (FaultsText (S.held shelf.old) (plain_command command.entry)) (Rose (S.faults shelf.old) (S.faults shelf.new))
        (change_of O.taken O.faults out.old out.new) (change_of E.taken E.faults err.old err.new) result
        ⊎ Rose (S.misses shelf.old) (S.misses shelf.new) }
    ensures held { S.held shelf.new ≡ S.held shelf.old }
    ensures counts { (S.faults shelf.old ≤ S.faults shelf.new) × (S.misses shelf.old ≤ S.misses shelf.new)
        × (O.faults out.old ≤ O.faults out.new) × (E.faults err.old ≤ E.faults err.new) }
{
    match own_text(alloc, command) {
        Err(AllocError) => Status::Memory,
        Ok(Some(text)) => do_own(alloc, command, text, out, err),
        Ok(None) => do_file(alloc, command, 0, shelf, out, err),
    }
}

/// Does with a command's own text what the command does.
fn do_own<O: Sink, E: Sink>(
    alloc: Global,
    command: Command<'_>,
    text: Vec<u8>,
    out: &mut O,
    err: &mut E,
) -> Status
    requires takes { TakesText (plain_command command) }
    requires fuel { fuel_of (plain_command command) ≤ FUEL_LIMIT }
    requires sites { IsSiteCount (sites_of (plain_command command)) }
    requires own { IsOwn (origin_of (plain_command command)) text.items }
    ensures meets { Meets (OwesText (MayGive (Some (only (origins.name_of (origin_of (plain_command command.entry))) text.items)))
        (plain_command command.entry)) (λ o. ⊥) ⊥ (change_of O.taken O.faults out.old out.new) (change_of E.taken E.faults err.old err.new) result }
    ensures faults_stay { O.faults out.old ≤ O.faults out.new }
    ensures err_faults_stay { E.faults err.old ≤ E.faults err.new }
{
    let own = text.len() as u64;
    match OneShelf::new(alloc, name_of(command), text) {
        Err(AllocError) => Status::Memory,
        Ok(mut shelf) => do_file(alloc, command, own, &mut shelf, out, err),
    }
}

/// Does with a file of this shelf, and with the texts that it reaches, what a command does.
fn do_file<S: Shelf, O: Sink, E: Sink>(
    alloc: Global,
    command: Command<'_>,
    own: u64,
    shelf: &mut S,
    out: &mut O,
    err: &mut E,
) -> Status
    requires takes { TakesText (plain_command command) }
    requires fuel { fuel_of (plain_command command) ≤ FUEL_LIMIT }
    requires sites { IsSiteCount (sites_of (plain_command command)) }
    requires own { own ≡ own_length (origin_of (plain_command command)) }
    ensures meets { Meets (OwesText (MayGive (S.held shelf.old)) (plain_command command.entry)) (FaultsFile (S.held shelf.old) (plain_command command.entry))
        (Rose (S.faults shelf.old) (S.faults shelf.new)) (change_of O.taken O.faults out.old out.new) (change_of E.taken E.faults err.old err.new) result }
    ensures each { Meets (OwesText (MayGiveText (S.held shelf.old)) (plain_command command.entry)) (FaultsFile (S.held shelf.old) (plain_command command.entry))
        (Rose (S.faults shelf.old) (S.faults shelf.new)) (change_of O.taken O.faults out.old out.new) (change_of E.taken E.faults err.old err.new) result
        ⊎ Rose (S.misses shelf.old) (S.misses shelf.new) }
    ensures held { S.held shelf.new ≡ S.held shelf.old }
    ensures counts { (S.faults shelf.old ≤ S.faults shelf.new) × (S.misses shelf.old ≤ S.misses shelf.new)
        × (O.faults out.old ≤ O.faults out.new) × (E.faults err.old ≤ E.faults err.new) }
{
    let mut sources = Sources::new(alloc);
    match front(
        alloc,
        prelude_of(command),
        name_of(command),
        shelf,
        &mut sources,
    ) {
        Err(FrontError::Memory) => Status::Memory,
        Err(FrontError::Missing) => {
            let name = name_of(command).as_bytes();
            report_line(alloc, name, ": no such file", Status::Missing, err)
        }
        Err(FrontError::Failed) => {
            let name = last_name(&sources);
            report_line(alloc, name, ": cannot be read", Status::ReadFault, err)
        }
        Err(FrontError::Named(code, span)) => refuse(alloc, &sources, span, code, err),
        Ok(front) => match trace_of(command) {
            Some(trace) => replay_over(alloc, trace, shelf, front, out, err),
            None => work_with(alloc, command, own, &sources, front, out, err),
        },
    }
}

/// The name of the last text; nothing where there is no text.
fn last_name(sources: &Sources) -> &[u8]
    ensures { result.now ≡ outcomes.last_name sources.now.list.items }
{
    match sources.list.last() {
        Some(source) => source.name.slice(),
        None => b"",
    }
}

/// Does with an accepted program what a command does with it alone: writes its object, or does its work.
fn work_with<O: Sink, E: Sink>(
    alloc: Global,
    command: Command<'_>,
    own: u64,
    sources: &Sources,
    front: Front,
    out: &mut O,
    err: &mut E,
) -> Status
    requires takes { TakesText (plain_command command) }
    requires short { AreShort sources.now.list.items }
    requires fuel { fuel_of (plain_command command) ≤ FUEL_LIMIT }
    requires sites { IsSiteCount (sites_of (plain_command command)) }
    requires own { own ≡ own_length (origin_of (plain_command command)) }
    requires accepted { IsAccepted (plain_front front) }
    requires closed { IsClosed (plain_core front.core) }
    requires object { IsObjectCore front.names (plain_core front.core) }
    ensures meets { Meets (OwesMade sources.now.list.items (plain_front front) (plain_command command.entry)) (λ o. ⊥) ⊥
        (change_of O.taken O.faults out.old out.new) (change_of E.taken E.faults err.old err.new) result }
    ensures faults_stay { O.faults out.old ≤ O.faults out.new }
    ensures err_faults_stay { E.faults err.old ≤ E.faults err.new }
{
    if builds(command) {
        build_object(alloc, sources, front, out, err)
    } else {
        do_ready(alloc, command, own, sources, front, out, err)
    }
}

/// Does with an accepted program the work of a command.
fn do_ready<O: Sink, E: Sink>(
    alloc: Global,
    command: Command<'_>,
    own: u64,
    sources: &Sources,
    front: Front,
    out: &mut O,
    err: &mut E,
) -> Status
    requires works { Works (plain_command command) }
    requires short { AreShort sources.now.list.items }
    requires fuel { fuel_of (plain_command command) ≤ FUEL_LIMIT }
    requires sites { IsSiteCount (sites_of (plain_command command)) }
    requires own { own ≡ own_length (origin_of (plain_command command)) }
    requires accepted { IsAccepted (plain_front front) }
    requires closed { IsClosed (plain_core front.core) }
    ensures meets { Meets (OwesWork sources.now.list.items (plain_front front) (plain_command command.entry)) (λ o. ⊥) ⊥
        (change_of O.taken O.faults out.old out.new) (change_of E.taken E.faults err.old err.new) result }
    ensures faults_stay { O.faults out.old ≤ O.faults out.new }
    ensures err_faults_stay { E.faults err.old ≤ E.faults err.new }
{
    match perform(alloc, command, own, front, out) {
        Err(RunError::Memory) => Status::Memory,
        Err(RunError::Sink) => Status::WriteFault,
        Ok(end) => report_end(alloc, sources, end, err),
    }
}

/// Reports how a command's work ended.
fn report_end<E: Sink>(alloc: Global, sources: &Sources, end: End, err: &mut E) -> Status
    requires short { AreShort sources.now.list.items }
    ensures text { EndReports sources.now.list.items end (change_of E.taken E.faults err.old err.new) result }
    ensures faults_stay { E.faults err.old ≤ E.faults err.new }
{
    match end {
        End::Done => Status::Done,
        End::FuelSpent => tell(report::SPENT, Status::FuelSpent, err),
        End::Trap(at) => report_trap(alloc, sources, at, err),
    }
}

/// Reports a division by zero at a place of one of the texts.
fn report_trap<E: Sink>(alloc: Global, sources: &Sources, at: Span, err: &mut E) -> Status
    requires short { AreShort sources.now.list.items }
    ensures text { Reports Status.Trap (trap_report (position_of sources.now.list.items at)) (change_of E.taken E.faults err.old err.new) result }
    ensures faults_stay { E.faults err.old ≤ E.faults err.new }
{
    match report::trap(alloc, report::position_of(sources, at)) {
        Err(AllocError) => Status::Memory,
        Ok(text) => tell(&text, Status::Trap, err),
    }
}

/// Reports a refusal at a place of one of the texts.
pub(crate) fn refuse<E: Sink>(
    alloc: Global,
    sources: &Sources,
    at: Span,
    code: Code,
    err: &mut E,
) -> Status
    requires short { AreShort sources.now.list.items }
    ensures text { Reports Status.Refused (refusal_report (position_of sources.now.list.items at) code) (change_of E.taken E.faults err.old err.new) result }
    ensures faults_stay { E.faults err.old ≤ E.faults err.new }
{
    match report::refusal(alloc, report::position_of(sources, at), code) {
        Err(AllocError) => Status::Memory,
        Ok(text) => tell(&text, Status::Refused, err),
    }
}

/// Reports a status by a line about a text, by its name.
pub(crate) fn report_line<E: Sink>(
    alloc: Global,
    name: &[u8],
    rest: &str,
    status: Status,
    err: &mut E,
) -> Status
    ensures text { Reports status (line name.now rest.now) (change_of E.taken E.faults err.old err.new) result }
    ensures faults_stay { E.faults err.old ≤ E.faults err.new }
{
    match report::line(alloc, name, rest) {
        Err(AllocError) => Status::Memory,
        Ok(text) => tell(&text, status, err),
    }
}

/// Writes the text of a status.
pub(crate) fn tell<E: Sink>(text: &[u8], status: Status, err: &mut E) -> Status
    ensures text { Tells status text.now (change_of E.taken E.faults err.old err.new) result }
    ensures faults_stay { E.faults err.old ≤ E.faults err.new }
{
    match err.write(text) {
        Ok(()) => status,
        Err(SinkFailed) => Status::WriteFault,
    }
}
