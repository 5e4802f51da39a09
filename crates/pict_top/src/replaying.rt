// Replay files over accepted programs: each is fetched, read and judged.
ghost use Rattle.std.specs.Prelude.{◌≡◌, ◌≤◌, ◌+◌, ◌⊎◌, ℕ, Option, IfOk, Ok, length, map};
ghost use Rattle.pict_syntax.specs.declared.limits.TheConstants.{TEXT_LIMIT};
ghost use Rattle.pict_core.specs.Closed.{IsClosed};
ghost use Rattle.pict_core.specs.Plain.{plain_core};
ghost use Rattle.pict_outside.specs.Counts.{Rose};
ghost use Rattle.pict_outside.specs.Texts.{Texts};
ghost use Rattle.pict_front.specs.Answers.{plain_front};
ghost use Rattle.pict_front.specs.Laws.{IsAccepted};
ghost use Rattle.pict_gather.specs.Fetching.{text, MayGive};
ghost use Rattle.pict_reduction.specs.Reached.{NoFreeRunIsWrong};
ghost use Rattle.pict_trace.specs.Plain.{plain_line};
ghost use Rattle.pict_replay.specs.Plain.{place_of};
ghost use Rattle.pict_replay.specs.Verdicts.{IsVerdict};
ghost use Rattle.pict_report.specs.Reports.{position_of, refusal_report};
ghost use Rattle.pict_top.specs.Answer.{alone, byte_at};
ghost use Rattle.pict_top.specs.Changes.{change_of};
ghost use Rattle.pict_top.specs.Meets.{Meets, Reports};
ghost use Rattle.pict_top.specs.Origins.{MayGiveText};
ghost use Rattle.pict_top.specs.Outcome.{status_of_verdict, verdict_line};
ghost use Rattle.pict_top.specs.Owed.{IsTraceFault, OwesReplay};

use crate::status::Status;
use crate::top::{refuse, report_line, tell};
use pict_core::Core;
use pict_front::Front;
use pict_lower::lower;
use pict_outside::{Fetched, Shelf, ShelfError, Sink};
use pict_replay::{FileError, ReplayFile, Verdict, read_file, replay};
use pict_syntax::{Bytes, Code, Source, Sources, Span, TEXT_LIMIT};
use std::alloc::{AllocError, Global};

/// Fetches the replay file of this name, and says whether it agrees with an accepted program.
pub fn replay_over<S: Shelf, O: Sink, E: Sink>(
    alloc: Global,
    trace: &str,
    shelf: &mut S,
    front: Front,
    out: &mut O,
    err: &mut E,
) -> Status
    requires few { length front.names ≤ TEXT_LIMIT + TEXT_LIMIT }
    requires accepted { IsAccepted (plain_front front) }
    requires closed { IsClosed (plain_core front.core) }
    ensures meets { Meets (OwesReplay (MayGive (S.held shelf.old)) trace.now (plain_front front)) (IsTraceFault trace.now)
        (Rose (S.faults shelf.old) (S.faults shelf.new)) (change_of O.taken O.faults out.old out.new) (change_of E.taken E.faults err.old err.new) result }
    ensures each { Meets (OwesReplay (MayGiveText (S.held shelf.old)) trace.now (plain_front front)) (IsTraceFault trace.now)
        (Rose (S.faults shelf.old) (S.faults shelf.new)) (change_of O.taken O.faults out.old out.new) (change_of E.taken E.faults err.old err.new) result
        ⊎ Rose (S.misses shelf.old) (S.misses shelf.new) }
    ensures held { S.held shelf.new ≡ S.held shelf.old }
    ensures counts { (S.faults shelf.old ≤ S.faults shelf.new) × (S.misses shelf.old ≤ S.misses shelf.new)
        × (O.faults out.old ≤ O.faults out.new) × (E.faults err.old ≤ E.faults err.new) }
{
    let name = trace.as_bytes();
    match shelf.fetch(alloc, trace, TEXT_LIMIT) {
        Err(ShelfError::Memory) => Status::Memory,
        Err(ShelfError::Failed) => {
            report_line(alloc, name, ": cannot be read", Status::ReadFault, err)
        }
        Ok(Fetched::Missing) => report_line(alloc, name, ": no such file", Status::Missing, err),
        Ok(Fetched::TooLong(_)) => refuse_alone(alloc, name, Vec::new(alloc), 0, Code::B1, err),
        Ok(Fetched::Text(found)) => judge_text(alloc, name, found, front, out, err),
    }
}

/// Reports a refusal at a byte of a text, by its name.
pub(crate) fn refuse_alone<E: Sink>(
    alloc: Global,
    name: &[u8],
    found: Vec<u8>,
    at: u32,
    code: Code,
    err: &mut E,
) -> Status
    requires short { length found.items ≤ TEXT_LIMIT }
    ensures text { Reports Status.Refused (refusal_report (position_of (alone name.now found.items) (byte_at at)) code)
        (change_of E.taken E.faults err.old err.new) result }
    ensures faults_stay { E.faults err.old ≤ E.faults err.new }
{
    let place = Span {
        text: 0,
        start: at,
        end: at,
    };
    match sources_of(alloc, name, found) {
        Err(AllocError) => Status::Memory,
        Ok(sources) => refuse(alloc, &sources, place, code, err),
    }
}

/// A text under this name, and no other.
fn sources_of(alloc: Global, name: &[u8], found: Vec<u8>) -> Result<Sources, AllocError>
    ensures { IfOk result (λ sources. sources.list.items ≡ alone name.now found.items) }
{
    let mut sources = Sources::new(alloc);
    let name = Bytes::copy_of(alloc, name)?;
    let text = Bytes::from_vec(found);
    sources.list.push(Source { name, text })?;
    Ok(sources)
}

/// Says whether a text agrees with an accepted program, or where it is no replay file.
fn judge_text<O: Sink, E: Sink>(
    alloc: Global,
    name: &[u8],
    found: Vec<u8>,
    front: Front,
    out: &mut O,
    err: &mut E,
) -> Status
    requires short { length found.items ≤ TEXT_LIMIT }
    requires few { length front.names ≤ TEXT_LIMIT + TEXT_LIMIT }
    requires accepted { IsAccepted (plain_front front) }
    requires closed { IsClosed (plain_core front.core) }
    ensures meets { (held : Option Texts) → MayGive held name.now (text found.items) → Meets (OwesReplay (MayGive held) name.now (plain_front front)) (λ o. ⊥) ⊥
        (change_of O.taken O.faults out.old out.new) (change_of E.taken E.faults err.old err.new) result }
    ensures each { (held : Option Texts) → MayGive held name.now (text found.items)
        → Meets (OwesReplay (MayGiveText held) name.now (plain_front front)) (λ o. ⊥) ⊥
        (change_of O.taken O.faults out.old out.new) (change_of E.taken E.faults err.old err.new) result }
    ensures faults_stay { O.faults out.old ≤ O.faults out.new }
    ensures err_faults_stay { E.faults err.old ≤ E.faults err.new }
{
    let Front { core, mut names } = front;
    let file = match read_file(alloc, &mut names, &found) {
        Ok(file) => file,
        Err(FileError::Memory) => return Status::Memory,
        Err(FileError::NoFile(at)) => {
            return refuse_alone(alloc, name, found, at as u32, Code::V1, err);
        }
    };
    match judge(alloc, &core, &file) {
        Err(AllocError) => Status::Memory,
        Ok(verdict) => tell_verdict(alloc, verdict, out),
    }
}

/// Whether the choices and the lines of a file agree with a process, of which no free run may be wrong.
fn judge(alloc: Global, core: &Core, file: &ReplayFile) -> Result<Verdict, AllocError>
    requires closed { IsClosed (plain_core core.now) }
    requires right { NoFreeRunIsWrong (plain_core core.now) }
    ensures yes { result ≡ Ok Verdict.Yes
        → IsVerdict (plain_core core.now) (map place_of file.now.choices.items) (map plain_line file.now.expected.items) Verdict.Yes }
    ensures no { (number : ℕ) → result ≡ Ok (Verdict.No number)
        → IsVerdict (plain_core core.now) (map place_of file.now.choices.items) (map plain_line file.now.expected.items) (Verdict.No number) }
{
    let code = lower(alloc, core)?;
    replay(alloc, code, &file.choices, &file.expected)
}

/// Writes a verdict.
fn tell_verdict<O: Sink>(alloc: Global, verdict: Verdict, out: &mut O) -> Status
    ensures text { Reports (status_of_verdict verdict) (verdict_line verdict) (change_of O.taken O.faults out.old out.new) result }
    ensures faults_stay { O.faults out.old ≤ O.faults out.new }
{
    match verdict {
        Verdict::Yes => tell(b"yes\n", Status::Done, out),
        Verdict::No(number) => match format!(in alloc; "no {number}\n") {
            Err(_) => Status::Memory,
            Ok(line) => tell(line.as_bytes(), Status::Rejected, out),
        },
    }
}
