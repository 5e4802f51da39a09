// Processes read from the bytes of an object. A reading moves on the bytes that it was lent, what stands before the parts of a
// process is read into boxes, each form has a function of its own, and the helpers that make a process unpack its last part: so
// frames are small, and a deep process takes little stack.

ghost use Rattle.pict_core.specs.Plain.{plain_core, plain_val, plain_pat, core_of, GivesPart};
ghost use Rattle.std.specs.Prelude.{◌≡◌, ℕ, List, Option, Some};
ghost use Rattle.pict_core.specs.Closed.{binds};
ghost use Rattle.pict_core.specs.Term.{Val, Pat, Process, Zero, Par, New, Out, In, If};
ghost use Rattle.pict_object.specs.Objects.{nowhere};
ghost use Rattle.pict_object.specs.Reading.{and_then, part_and, GivesReading, more, value_at, receiver_at, par_at, new_at, out_at, in_at, if_at, tagged_at, process_at, whole_at};

use crate::error::DecodeError;
use crate::pattern::{read_pattern, variables};
use crate::value::read_value;
use pict_core::{Core, CorePat, CoreVal, Part};
use pict_syntax::{DEPTH_LIMIT, NESTING_LIMIT, Name, Span};
use std::alloc::{AllocError, Global};

// What an input has before its body.
#[derive(Drop)]
struct Receiver {
    chan: CoreVal,
    pattern: CorePat,
}

#[inline(never)]
fn zero(alloc: Global) -> Result<Part, DecodeError>
    ensures { (rest : List ℕ) → GivesReading (part_and rest) result (Some (Zero, rest)) }
{
    Ok(Part::new(alloc, Core::Zero)?)
}

#[inline(never)]
fn par(alloc: Global, left: Part, right: Result<Part, DecodeError>) -> Result<Part, DecodeError>
    ensures { (read : Option (Process × List ℕ)) (rest : List ℕ) → GivesReading (part_and rest) right read
        → GivesReading (part_and rest) result (and_then read (λ right. Some (Par (plain_core (core_of left)) right.0, right.1))) }
{
    Ok(Part::new(alloc, Core::Par(left, right?))?)
}

#[inline(never)]
fn new(alloc: Global, body: Result<Part, DecodeError>) -> Result<Part, DecodeError>
    ensures { (read : Option (Process × List ℕ)) (rest : List ℕ) → GivesReading (part_and rest) body read
        → GivesReading (part_and rest) result (and_then read (λ body. Some (New body.0, body.1))) }
{
    Ok(Part::new(alloc, Core::New(body?))?)
}

fn output(alloc: Global, chan: CoreVal, message: CoreVal) -> Result<Part, AllocError>
    ensures { GivesPart result (Out (plain_val chan) (plain_val message) nowhere) }
{
    let at = Span {
        text: 0,
        start: 0,
        end: 0,
    };
    Part::new(alloc, Core::Out { chan, message, at })
}

#[inline(never)]
fn input(
    alloc: Global,
    replicated: bool,
    receiver: Box<Receiver>,
    body: Result<Part, DecodeError>,
) -> Result<Part, DecodeError>
    ensures { (read : Option (Process × List ℕ)) (rest : List ℕ) → GivesReading (part_and rest) body read
        → GivesReading (part_and rest) result
        (and_then read (λ body. Some (In (plain_val receiver.value.chan) replicated (plain_pat receiver.value.pattern) body.0, body.1))) }
{
    let body = body?;
    let Receiver { chan, pattern } = Box::into_inner(receiver);
    let process = Core::In {
        chan,
        replicated,
        pattern,
        body,
    };
    Ok(Part::new(alloc, process)?)
}

#[inline(never)]
fn conditional(
    alloc: Global,
    test: Box<CoreVal>,
    yes: Part,
    no: Result<Part, DecodeError>,
) -> Result<Part, DecodeError>
    ensures { (read : Option (Process × List ℕ)) (rest : List ℕ) → GivesReading (part_and rest) no read
        → GivesReading (part_and rest) result
        (and_then read (λ second. Some (If (plain_val test.value) (plain_core (core_of yes)) second.0, second.1))) }
{
    let no = no?;
    let process = Core::If {
        test: Box::into_inner(test),
        yes,
        no,
    };
    Ok(Part::new(alloc, process)?)
}

// How many variables there are in the body of an input, where there were so many before it. Held at the greatest `u64`.
#[inline(never)]
fn inside(bound: u64, receiver: &Receiver) -> u64
    ensures { result ≡ more bound (binds (plain_pat receiver.now.pattern)) }
{
    bound.saturating_add(variables(&receiver.pattern))
}

// The value at the front, under so many variables; `rest` is then what is behind it.
#[inline(never)]
fn take_value<'a>(
    alloc: Global,
    rest: &mut &'a [u8],
    labels: &[Name],
    bound: u64,
) -> Result<Box<CoreVal>, DecodeError>
    ensures { GivesReading {Y = Val × List ℕ} (λ x. (plain_val x.value, rest.new.now)) result (value_at labels.now bound NESTING_LIMIT rest.old.now) }
{
    let (value, behind) = read_value(alloc, *rest, labels, bound, NESTING_LIMIT)?;
    *rest = behind;
    Ok(Box::new(alloc, value)?)
}

// The channel and the pattern at the front, under so many variables; `rest` is then what is behind them.
#[inline(never)]
#[tactic(auto, unfolding(crate::specs::Reading::receiver_at))]
fn take_receiver<'a>(
    alloc: Global,
    rest: &mut &'a [u8],
    labels: &[Name],
    bound: u64,
) -> Result<Box<Receiver>, DecodeError>
    ensures { GivesReading {Y = (Val × Pat) × List ℕ} (λ x. ((plain_val x.value.chan, plain_pat x.value.pattern), rest.new.now)) result
        (receiver_at labels.now bound rest.old.now) }
{
    let (chan, behind) = read_value(alloc, *rest, labels, bound, NESTING_LIMIT)?;
    let (pattern, behind) = read_pattern(alloc, behind, labels, NESTING_LIMIT)?;
    *rest = behind;
    Ok(Box::new(alloc, Receiver { chan, pattern })?)
}

/// The process at the front, of at most the depth `left` and under so many variables; `rest` is then what is behind it. No place
/// has a text.
#[cycle(read_part)]
#[tactic(auto, using(crate::proofs::Forms::process_too_deep))]
pub(crate) fn read_part<'a>(
    alloc: Global,
    rest: &mut &'a [u8],
    labels: &[Name],
    bound: u64,
    left: u64,
) -> Result<Part, DecodeError>
    ensures { GivesReading (part_and rest.new.now) result (process_at labels.now left bound rest.old.now) }
{
    if left == 0 {
        return Err(DecodeError::NotObject);
    }
    let bytes: &'a [u8] = *rest;
    match bytes {
        [] => Err(DecodeError::NotObject),
        [tag, behind @ ..] => {
            *rest = behind;
            read_tagged(alloc, *tag, rest, labels, bound, left - 1)
        }
    }
}

// A process behind its tag, whose parts have at most the depth `left`.
#[cycle(read_part)]
#[tactic(auto, unfolding(crate::specs::Reading::tagged_at))]
fn read_tagged<'a>(
    alloc: Global,
    tag: u8,
    rest: &mut &'a [u8],
    labels: &[Name],
    bound: u64,
    left: u64,
) -> Result<Part, DecodeError>
    ensures { GivesReading (part_and rest.new.now) result (tagged_at labels.now (process_at labels.now left) bound tag rest.old.now) }
{
    match tag {
        0 => zero(alloc),
        1 => read_par(alloc, rest, labels, bound, left),
        2 => read_new(alloc, rest, labels, bound, left),
        3 => read_out(alloc, rest, labels, bound),
        4 => read_in(alloc, false, rest, labels, bound, left),
        5 => read_in(alloc, true, rest, labels, bound, left),
        6 => read_if(alloc, rest, labels, bound, left),
        _ => Err(DecodeError::NotObject),
    }
}

#[cycle(read_part)]
#[inline(never)]
#[tactic(auto, unfolding(crate::specs::Reading::par_at))]
fn read_par<'a>(
    alloc: Global,
    rest: &mut &'a [u8],
    labels: &[Name],
    bound: u64,
    left: u64,
) -> Result<Part, DecodeError>
    ensures { GivesReading (part_and rest.new.now) result (par_at (process_at labels.now left) bound rest.old.now) }
{
    let first = read_part(alloc, rest, labels, bound, left)?;
    par(alloc, first, read_part(alloc, rest, labels, bound, left))
}

#[cycle(read_part)]
#[inline(never)]
#[tactic(auto, unfolding(crate::specs::Reading::new_at))]
fn read_new<'a>(
    alloc: Global,
    rest: &mut &'a [u8],
    labels: &[Name],
    bound: u64,
    left: u64,
) -> Result<Part, DecodeError>
    ensures { GivesReading (part_and rest.new.now) result (new_at (process_at labels.now left) bound rest.old.now) }
{
    let inner = bound.saturating_add(1);
    new(alloc, read_part(alloc, rest, labels, inner, left))
}

#[inline(never)]
#[tactic(auto, unfolding(crate::specs::Reading::out_at))]
fn read_out<'a>(
    alloc: Global,
    rest: &mut &'a [u8],
    labels: &[Name],
    bound: u64,
) -> Result<Part, DecodeError>
    ensures { GivesReading (part_and rest.new.now) result (out_at labels.now bound rest.old.now) }
{
    let (chan, behind) = read_value(alloc, *rest, labels, bound, NESTING_LIMIT)?;
    let (message, behind) = read_value(alloc, behind, labels, bound, NESTING_LIMIT)?;
    *rest = behind;
    Ok(output(alloc, chan, message)?)
}

#[cycle(read_part)]
#[inline(never)]
fn read_in<'a>(
    alloc: Global,
    replicated: bool,
    rest: &mut &'a [u8],
    labels: &[Name],
    bound: u64,
    left: u64,
) -> Result<Part, DecodeError>
    ensures { GivesReading (part_and rest.new.now) result (in_at labels.now replicated (process_at labels.now left) bound rest.old.now) }
{
    let receiver = take_receiver(alloc, rest, labels, bound)?;
    let inner = inside(bound, &receiver);
    let body = read_part(alloc, rest, labels, inner, left);
    input(alloc, replicated, receiver, body)
}

#[cycle(read_part)]
#[inline(never)]
#[tactic(auto, unfolding(crate::specs::Reading::if_at))]
fn read_if<'a>(
    alloc: Global,
    rest: &mut &'a [u8],
    labels: &[Name],
    bound: u64,
    left: u64,
) -> Result<Part, DecodeError>
    ensures { GivesReading (part_and rest.new.now) result (if_at labels.now (process_at labels.now left) bound rest.old.now) }
{
    let test = take_value(alloc, rest, labels, bound)?;
    let yes = read_part(alloc, rest, labels, bound, left)?;
    let no = read_part(alloc, rest, labels, bound, left);
    conditional(alloc, test, yes, no)
}

/// The process that all of these bytes are.
#[tactic(auto, unfolding(crate::specs::Reading::whole_at))]
pub(crate) fn read_whole(alloc: Global, bytes: &[u8], labels: &[Name]) -> Result<Core, DecodeError>
    ensures { GivesReading (λ core. plain_core core) result (whole_at labels.now bytes.now) }
{
    let mut rest = bytes;
    let part = read_part(alloc, &mut rest, labels, 0, DEPTH_LIMIT)?;
    if !rest.is_empty() {
        return Err(DecodeError::NotObject);
    }
    Ok(part.into_core())
}
