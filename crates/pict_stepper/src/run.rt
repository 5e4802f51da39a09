// A small run, step by step.

ghost use Rattle.std.specs.Prelude.{◌≡◌, ◌≢◌, ◌+◌, ◌<◌, ◌^◌, map, filter, option_map, IfOk};
ghost use Rattle.pict_syntax.specs.declared.span.Span.{Span as PlainSpan};
ghost use Rattle.pict_core.specs.Plain.{plain_core, plain_val};
ghost use Rattle.pict_core.specs.Closed.{IsClosed};
ghost use Rattle.pict_core.specs.Configuration.{IsConfiguration};
ghost use Rattle.pict_core.specs.Step.{least, is_partner, is_parked_reader, is_parked_message, at_channel, Wrong, next as next_plain};
ghost use Rattle.pict_view.specs.Right.{RunsRight};
ghost use Rattle.pict_reference.specs.Plain.{plain_entry, configuration_of};
ghost use Rattle.pict_stepper.specs.Steps.{channel_number, IsBusy, EndsBy, IsTurn, IsStepOf, IsOutcome, IsRun};
ghost use Rattle.pict_stepper.specs.Told.{is_stamp_of, stamp_of};
ghost use Rattle.pict_stepper.specs.Touched.{is_touched};
ghost use Rattle.pict_stepper.specs.declared.run.End.TheVariants.{Trap};

use crate::rule::{Rule, rule_of};
use pict_core::{Core, CoreVal};
use pict_reference::{
    Entry, Label, Reference, StepOutcome, oldest_message, oldest_reader, oldest_ready,
};
use pict_syntax::Span;
use std::alloc::{AllocError, Global};

/// A step of a run.
#[derive(Drop)]
pub struct Step {
    /// Who acts.
    pub actor: Entry,
    /// The parked process that it meets, if its channel has one.
    pub partner: Option<Entry>,
    /// The row of the table of steps.
    pub rule: Rule,
    /// What the step shows.
    pub label: Label,
    /// Who is there afterwards of those that the step touches: at the stamp of who acts, at that of the partner, and at new ones.
    /// All others stay as they are.
    pub come: Vec<Entry>,
}

/// Why a run is followed no further.
#[derive(Clone, Copy)]
pub enum End {
    /// Nothing is ready.
    Finished,
    /// The next step divides by zero, for the output at this place.
    Trap(Span),
    /// It was followed as far as was asked, and somebody is ready still.
    GoesOn,
}

/// The beginning of a run, or all of it.
#[derive(Drop)]
pub struct Run {
    /// The one process before the first step.
    pub first: Entry,
    /// Its steps in order.
    pub steps: Vec<Step>,
    /// What is there after them.
    pub last: Reference,
    /// Why there are no more of them.
    pub end: End,
}

/// Whose turn it is.
#[derive(Drop)]
pub struct Turn {
    /// Who acts.
    pub actor: Entry,
    /// The parked process that it meets, if its channel has one.
    pub partner: Option<Entry>,
    /// The row of the table of steps.
    pub rule: Rule,
}

// What becomes of a configuration.
#[derive(Drop)]
enum Outcome {
    Taken(Step),
    Ended(End),
}

// The number of a channel.
fn number_of(chan: &CoreVal) -> Option<u32>
    ensures { result ≡ channel_number (plain_val chan.now) }
{
    match chan {
        CoreVal::Chan(number) => Some(*number),
        _ => None,
    }
}

// The reader that has been parked longest at a channel.
fn reader_at<'a>(chan: &CoreVal, entries: &'a [Entry]) -> Option<&'a Entry>
    ensures { option_map (λ e. plain_entry e.now) result ≡ least (at_channel is_parked_reader (plain_val chan.now)) (map plain_entry entries.now) }
{
    match number_of(chan) {
        None => None,
        Some(number) => oldest_reader(number, entries),
    }
}

// The message that has been parked longest at a channel.
fn message_at<'a>(chan: &CoreVal, entries: &'a [Entry]) -> Option<&'a Entry>
    ensures { option_map (λ e. plain_entry e.now) result ≡ least (at_channel is_parked_message (plain_val chan.now)) (map plain_entry entries.now) }
{
    match number_of(chan) {
        None => None,
        Some(number) => oldest_message(number, entries),
    }
}

// The partner that has been parked longest.
fn partner_of<'a>(process: &Core, entries: &'a [Entry]) -> Option<&'a Entry>
    ensures { option_map (λ e. plain_entry e.now) result ≡ least (is_partner (plain_core process.now)) (map plain_entry entries.now) }
{
    match process {
        Core::Out { chan, .. } => reader_at(chan, entries),
        Core::In { chan, .. } => message_at(chan, entries),
        Core::Zero => None,
        Core::Par(_, _) => None,
        Core::New(_) => None,
        Core::If { .. } => None,
    }
}

fn copy_of(alloc: Global, entry: Option<&Entry>) -> Result<Option<Entry>, AllocError>
    ensures { IfOk result (λ copy. option_map plain_entry copy ≡ option_map (λ e. plain_entry e.now) entry.entry) }
{
    match entry {
        None => Ok(None),
        Some(entry) => Ok(Some(entry.copy(alloc)?)),
    }
}

/// Whose turn it is among these, which stand by rising stamps; none where nobody is ready. The only error is want of memory.
pub fn turn_of(alloc: Global, entries: &[Entry]) -> Result<Option<Turn>, AllocError>
    ensures { IfOk result (IsTurn (map plain_entry entries.now)) }
{
    match oldest_ready(entries) {
        None => Ok(None),
        Some(actor) => {
            let partner = partner_of(&actor.process, entries);
            let rule = rule_of(&actor.process, partner);
            Ok(Some(Turn {
                actor: actor.copy(alloc)?,
                partner: copy_of(alloc, partner)?,
                rule,
            }))
        }
    }
}

fn stamp_of(entry: &Option<Entry>) -> Option<u64>
    ensures { result ≡ stamp_of (option_map plain_entry entry.now) }
{
    match entry {
        None => None,
        Some(entry) => Some(entry.stamp),
    }
}

fn is_stamp_of(partner: Option<u64>, stamp: u64) -> bool
    ensures { result ≡ is_stamp_of partner stamp }
{
    match partner {
        None => false,
        Some(own) => own == stamp,
    }
}

// Whether a stamp is that of who acts or of the partner, or a new one: from this one on.
fn is_touched(from: u64, actor: u64, partner: Option<u64>, stamp: u64) -> bool
    ensures { result ≡ is_touched from actor partner stamp }
{
    actor == stamp || is_stamp_of(partner, stamp) || from <= stamp
}

// Those of the entries at stamps that are touched.
fn touched(
    alloc: Global,
    from: u64,
    actor: u64,
    partner: Option<u64>,
    entries: &[Entry],
) -> Result<Vec<Entry>, AllocError>
    ensures { IfOk result (λ come. map plain_entry come.items ≡ filter (λ e. is_touched from actor partner e.stamp) (map plain_entry entries.now)) }
{
    let mut come = Vec::new(alloc);
    for entry in entries {
        if is_touched(from, actor, partner, entry.stamp) {
            come.push(entry.copy(alloc)?)?;
        }
    }
    Ok(come)
}

// The step of a turn, with those who come by it, of the entries afterwards.
fn step_of(
    alloc: Global,
    turn: Turn,
    label: Label,
    from: u64,
    entries: &[Entry],
) -> Result<Step, AllocError>
    ensures { IfOk result (IsStepOf turn label from (map plain_entry entries.now)) }
{
    let partner = stamp_of(&turn.partner);
    let come = touched(alloc, from, turn.actor.stamp, partner, entries)?;
    Ok(Step {
        actor: turn.actor,
        partner: turn.partner,
        rule: turn.rule,
        label,
        come,
    })
}

fn next(alloc: Global, reference: &mut Reference) -> Result<Outcome, AllocError>
    requires channels { (configuration_of reference.old).channels + 1 < 2 ^ 32 }
    requires stamps { (configuration_of reference.old).next_stamp + 2 < 2 ^ 64 }
    requires is { IsConfiguration (configuration_of reference.old) }
    requires right { next_plain (configuration_of reference.old) ≢ Wrong }
    ensures { IfOk result (λ made. IsOutcome (configuration_of reference.old) made (configuration_of reference.new)) }
{
    let turn = turn_of(alloc, reference.entries())?;
    let from = reference.next_stamp();
    match (reference.next()?, turn) {
        (StepOutcome::Steps(label), Some(turn)) => {
            let step = step_of(alloc, turn, label, from, reference.entries())?;
            Ok(Outcome::Taken(step))
        }
        (StepOutcome::Steps(_), None) => unreachable!(),
        (StepOutcome::Traps(at), _) => Ok(Outcome::Ended(End::Trap(at))),
        (StepOutcome::Finished, _) => Ok(Outcome::Ended(End::Finished)),
        (StepOutcome::Wrong, _) => unreachable!(),
    }
}

// Where a run stands that is followed no further, though no step has ended it.
fn end_of(last: &Reference) -> End
    ensures ends { EndsBy (IsBusy (configuration_of last.now)) (configuration_of last.now) result }
    ensures no_trap { (at : PlainSpan) → result ≢ Trap at }
{
    match oldest_ready(last.entries()) {
        None => End::Finished,
        Some(_) => End::GoesOn,
    }
}

/// Follows the run of a process for at most so many steps. A run of exactly so many is finished. The only error is want of memory.
pub fn follow(alloc: Global, process: Core, most: usize) -> Result<Run, AllocError>
    requires few { most + 1 < 2 ^ 32 }
    requires closed { IsClosed (plain_core process) }
    requires right { RunsRight (plain_core process) most }
    ensures { IfOk result (IsRun (plain_core process) most) }
{
    let first = Entry {
        stamp: 0,
        ready: true,
        process: process.copy(alloc)?,
    };
    let mut last = Reference::open(alloc, process)?;
    let mut steps = Vec::new(alloc);
    'steps: while steps.len() < most {
        match next(alloc, &mut last)? {
            Outcome::Taken(step) => steps.push(step)?,
            Outcome::Ended(end) => {
                return Ok(Run {
                    first,
                    steps,
                    last,
                    end,
                });
            }
        }
    }
    let end = end_of(&last);
    Ok(Run {
        first,
        steps,
        last,
        end,
    })
}
