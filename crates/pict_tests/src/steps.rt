// The machine beside the definition of its steps: worked programs, what they show at which steps, and how they end.

ghost use Rattle.std.specs.Prelude.{◌≤◌, ◌<◌, ℕ, IfSome};
ghost use Rattle.pict_core.specs.Plain.{plain_core};
ghost use Rattle.pict_core.specs.Closed.{IsClosed};
ghost use Rattle.pict_view.specs.Right.{RunsRight};
ghost use Rattle.pict_machine.specs.Events.{IsEventOf};

use crate::blocks::{ended, parts};
use crate::primitives::PRIMITIVES;
use itoa::Buffer;
use pict_core::Core;
use pict_front::front;
use pict_heap::Heap;
use pict_machine::{End, Event, Machine, RunError, Stopped, Watcher};
use pict_reference::{Label, Reference, StepOutcome};
use pict_show::write_value;
use pict_show_words::{printed, write_word};
use pict_syntax::{FUEL_LIMIT, Names, Sources, Span};
use pict_top::OneShelf;
use std::alloc::{AllocError, Global};

// ---- accepted texts

/// The name of a text.
const FILE: &str = "F";

/// The core process of a text; nothing where the text is refused.
fn accepted(alloc: Global, text: &[u8]) -> Option<Core>
    ensures closed { IfSome result (λ core. IsClosed (plain_core core)) }
    ensures right { IfSome result (λ core. (fuel : ℕ) → RunsRight (plain_core core) fuel) }
{
    let Ok(text) = Vec::from_slice(alloc, text) else {
        return None;
    };
    let Ok(mut shelf) = OneShelf::new(alloc, FILE, text) else {
        return None;
    };
    let mut sources = Sources::new(alloc);
    match front(alloc, None, FILE, &mut shelf, &mut sources) {
        Ok(front) => Some(front.core),
        Err(_) => None,
    }
}

// ---- a watcher that writes lines

/// What steps show, a line each: its number, and the channel and the value, whose labels stand without their names, or
/// what is printed.
#[derive(Drop)]
struct Notes {
    text: Vec<u8>,
    names: Names,
    alloc: Global,
}

impl Watcher for Notes {
    ghost use Rattle.std.specs.Prelude.{None};

    ghost view = { λ _. None };

    ghost next = { λ _ v n l. v };

    ghost torn = { λ _ v n l w. Unit {0} };

    ghost faults = { λ _. 0 };

    ghost same = { λ _ _. Unit {0} };

    ghost same_itself = { λ _. tt };

    ghost same_along = { λ _ _ _ _ _. tt };

    fn see(&mut self, heap: &Heap, number: u64, event: &Event) -> Result<(), RunError> {
        match self.event(heap, number, event) {
            Ok(()) => Ok(()),
            Err(_) => Err(RunError::Memory),
        }
    }
}

impl Notes {
    fn new(alloc: Global) -> Notes {
        Notes {
            text: Vec::new(alloc),
            names: Names::new(alloc),
            alloc,
        }
    }

    fn text(&mut self, bytes: &[u8]) -> Result<(), AllocError> {
        self.text.extend_from_slice(bytes)
    }

    /// The line of what a step of the machine shows.
    fn event(&mut self, heap: &Heap, number: u64, event: &Event) -> Result<(), AllocError>
        requires { IsEventOf heap.now event.now }
    {
        match event {
            Event::Comm { channel, value } => {
                self.text(format!(in self.alloc; "{number} c{channel} ")?.as_bytes())?;
                write_word(self.alloc, &mut self.text, &self.names, heap, *value)?;
            }
            Event::Print(word) => {
                let mut digits = Buffer::new();
                self.text(format!(in self.alloc; "{number} print ")?.as_bytes())?;
                self.text(printed(heap, *word, &mut digits))?;
            }
            _ => return Ok(()),
        }
        self.text(b"\n")
    }

    /// The line of a label of the definition.
    fn label(&mut self, number: u64, label: &Label) -> Result<(), AllocError> {
        match label {
            Label::Comm(channel, value) => {
                self.text(format!(in self.alloc; "{number} c{channel} ")?.as_bytes())?;
                write_value(self.alloc, &mut self.text, &self.names, value)?;
            }
            Label::Print(bytes) => {
                self.text(format!(in self.alloc; "{number} print ")?.as_bytes())?;
                self.text(bytes.slice())?;
            }
            Label::Quiet => return Ok(()),
        }
        self.text(b"\n")
    }
}

// ---- the run by the machine, and by the definition

/// How a run ends, the lines that it shows, and how often words of blocks were touched until its end.
#[derive(Drop)]
struct Ran {
    stopped: Stopped,
    lines: Vec<u8>,
    work: u64,
}

/// The run of an accepted text with this fuel; nothing where the text is refused.
fn run_text(alloc: Global, text: &[u8], fuel: u64) -> Result<Option<Ran>, AllocError>
    requires { fuel ≤ FUEL_LIMIT }
{
    let Some(core) = accepted(alloc, text) else {
        return Ok(None);
    };
    let mut machine = Machine::load_core(alloc, core)?;
    let mut notes = Notes::new(alloc);
    match machine.run_counted(fuel, &mut notes) {
        Ok(stopped) => Ok(Some(Ran {
            stopped,
            lines: notes.text,
            work: machine.queues().work(),
        })),
        Err(_) => Ok(None),
    }
}

/// A run that ends so after so many steps.
fn stopped(end: End, steps: u64) -> Stopped {
    Stopped { end, steps }
}

/// What comes of a defined step.
#[derive(Clone, Copy)]
enum Next {
    /// It is done.
    Stepped,
    /// The run ends.
    Ended(End),
    /// It is wrong, or numbers run out.
    Wrong,
}

/// Does the defined step with this number, and notes what it shows.
fn step(reference: &mut Reference, notes: &mut Notes, number: u64) -> Result<Next, AllocError> {
    if !reference.has_room() {
        return Ok(Next::Wrong);
    }
    match reference.next()? {
        StepOutcome::Steps(label) => {
            notes.label(number, &label)?;
            Ok(Next::Stepped)
        }
        StepOutcome::Traps(at) => Ok(Next::Ended(End::Trap(at))),
        StepOutcome::Finished => Ok(Next::Ended(End::Done)),
        StepOutcome::Wrong => Ok(Next::Wrong),
    }
}

/// Whether the defined step is none, as nothing is ready.
fn is_finished(reference: &mut Reference) -> Result<bool, AllocError> {
    Ok(reference.has_room() && matches!(reference.next()?, StepOutcome::Finished))
}

/// How the defined run of a process ends, and after how many steps, with what it shows in the notes; nothing where a step is wrong.
fn defined_end(
    reference: &mut Reference,
    notes: &mut Notes,
    fuel: u64,
) -> Result<Option<Stopped>, AllocError>
    requires { fuel ≤ FUEL_LIMIT }
{
    for done in 0..fuel {
        match step(reference, notes, done + 1)? {
            Next::Stepped => {}
            Next::Ended(End::Done) => return Ok(Some(stopped(End::Done, done))),
            Next::Ended(end) => return Ok(Some(stopped(end, done + 1))),
            Next::Wrong => return Ok(None),
        }
    }
    if is_finished(reference)? {
        Ok(Some(stopped(End::Done, fuel)))
    } else {
        Ok(Some(stopped(End::FuelSpent, fuel)))
    }
}

/// How the defined run of a text ends, after how many steps, and its lines; nothing where the text is refused or a step is
/// wrong.
fn defined(alloc: Global, text: &[u8], fuel: u64) -> Result<Option<(Stopped, Vec<u8>)>, AllocError>
    requires { fuel ≤ FUEL_LIMIT }
{
    let Some(core) = accepted(alloc, text) else {
        return Ok(None);
    };
    let mut reference = Reference::open(alloc, core)?;
    let mut notes = Notes::new(alloc);
    match defined_end(&mut reference, &mut notes, fuel)? {
        Some(end) => Ok(Some((end, notes.text))),
        None => Ok(None),
    }
}

/// Whether the run of the text with this fuel ends so after so many steps, and shows these lines.
fn ends(
    alloc: Global,
    text: &[u8],
    fuel: u64,
    end: Stopped,
    lines: &[u8],
) -> Result<bool, AllocError>
    requires { fuel ≤ FUEL_LIMIT }
{
    match run_text(alloc, text, fuel)? {
        Some(ran) => Ok(ran.stopped == end && ran.lines.as_slice() == lines),
        None => Ok(false),
    }
}

/// Whether the machine's first hundred steps of the text are those of the definition.
fn steps_as_defined(alloc: Global, text: &[u8]) -> Result<bool, AllocError> {
    match defined(alloc, text, 100)? {
        Some((end, lines)) => ends(alloc, text, 100, end, &lines),
        None => Ok(false),
    }
}

/// Whether the run of the text with this fuel ends so after so many steps, and shows these lines, and its first hundred steps are
/// those of the definition.
fn runs(
    alloc: Global,
    text: &[u8],
    fuel: u64,
    end: Stopped,
    lines: &[u8],
) -> Result<bool, AllocError>
    requires { fuel ≤ FUEL_LIMIT }
{
    Ok(steps_as_defined(alloc, text)? && ends(alloc, text, fuel, end, lines)?)
}

/// Whether the run of the text spends this fuel.
fn spends(alloc: Global, text: &[u8], fuel: u64) -> Result<bool, AllocError>
    requires { fuel ≤ FUEL_LIMIT }
{
    match run_text(alloc, text, fuel)? {
        Some(ran) => Ok(ran.stopped == stopped(End::FuelSpent, fuel)),
        None => Ok(false),
    }
}

/// Whether the run of the text takes so many steps until nothing is ready: one less is too little fuel, and one more changes
/// nothing.
fn takes(alloc: Global, text: &[u8], steps: u64, lines: &[u8]) -> Result<bool, AllocError>
    requires { steps < FUEL_LIMIT }
{
    let done = stopped(End::Done, steps);
    if steps > 0 && !spends(alloc, text, steps - 1)? {
        return Ok(false);
    }
    Ok(runs(alloc, text, steps, done, lines)? && ends(alloc, text, steps + 1, done, lines)?)
}

// ---- worked programs

/// Programs, how many steps they take until nothing is ready, and what the steps show.
const PROGRAMS: &str = r#"
1 steps:

3 steps: run print!"hello"
2 print hello

7 steps: new c:^Int run c!1 run c?n = printi!n
5 c0 1
7 print 1

17 steps: new c:^Int run c!1 run c!2 run c!3 run c?x = printi!x run c?x = printi!x run c?x = printi!x
9 c0 1
11 c0 2
12 print 1
14 c0 3
15 print 2
17 print 3

-- a replicated reader that served goes behind the plain one
15 steps: new c:^Int run c?*x = printi!x run c?y = print!"p" run c!1 run c!2 run c!3
7 c0 1
9 c0 2
10 print 1
12 c0 3
13 print p
15 print 3

-- one that received keeps the turn
12 steps: new c:^Int run c!1 run c!2 run c?*x = printi!x
7 c0 1
8 c0 2
11 print 1
12 print 2

4 steps: run if false then print!"yes" else print!"no"
3 print no

4 steps: new c:^Int run c!1

4 steps: new c:^Int run c?n = print!"x"

-- a fold leaves nothing
7 steps: type S = (rec X = ^X) new c:^S run c!(rec c) run c?(rec d) = print!"ok"
5 c0 c0
7 print ok

-- calls of primitives and of a function
8 steps: run printi!(+ 9223372036854775807 1)
7 c0 -9223372036854775808
8 print -9223372036854775808

8 steps: run printi!(div -9223372036854775808 -1)
7 c0 -9223372036854775808
8 print -9223372036854775808

8 steps: run printi!(mod -9223372036854775808 -1)
7 c0 0
8 print 0

8 steps: run printi!(div -7 2)
7 c0 -3
8 print -3

8 steps: run printi!(mod -7 2)
7 c0 -1
8 print -1

16 steps: val f = \(x:Int) = (+ x 1) run printi!(f 2)
7 c0 c1
13 c1 [2 c2]
15 c2 3
16 print 3"#;

/// Whether the text of a block has this run.
fn is_right(alloc: Global, block: &str) -> Result<bool, AllocError> {
    let (before, text, lines) = parts(block, " steps:");
    let steps = before.lines().last().unwrap_or("");
    let steps = steps.parse::<u16>().unwrap_or(0);
    let lines = ended(alloc, lines)?;
    takes(alloc, text.as_bytes(), steps as u64, lines.as_bytes())
}

/// The first block of a table whose text has another run.
fn wrong_block(alloc: Global, table: &'static str) -> Result<Option<&'static str>, AllocError> {
    for block in table.split("\n\n") {
        if !is_right(alloc, block)? {
            return Ok(Some(block));
        }
    }
    Ok(None)
}

#[test]
fn worked_programs(rt: HostRuntime) -> Result<(), AllocError> {
    if let Some(block) = wrong_block(rt.alloc(), PROGRAMS)? {
        panic!(rt; "{block}");
    }
    if let Some(block) = wrong_block(rt.alloc(), PRIMITIVES)? {
        panic!(rt; "{block}");
    }
    Ok(())
}

/// Whether a run spends its fuel, and shows these lines.
fn is_spent(alloc: Global, text: &[u8], fuel: u64, lines: &[u8]) -> Result<bool, AllocError>
    requires { fuel ≤ FUEL_LIMIT }
{
    runs(alloc, text, fuel, stopped(End::FuelSpent, fuel), lines)
}

fn is_too_little(alloc: Global) -> Result<bool, AllocError> {
    let hello = b"run print!\"hello\"";
    Ok(
        is_spent(alloc, hello, 2, b"2 print hello\n")?
            && is_spent(alloc, hello, 1, b"")?
            && is_spent(alloc, hello, 0, b"")?,
    )
}

/// The lines of a loop that sends to itself: from the seventh step on each is a communication.
fn endless_lines(alloc: Global) -> Result<Vec<u8>, AllocError> {
    let mut lines = Vec::from_slice(alloc, b"5 c0 []\n")?;
    for step in 7..1001 {
        let line = format!(in alloc; "{step} c0 []\n")?;
        lines.extend_from_slice(line.as_bytes())?;
    }
    Ok(lines)
}

fn is_endless(alloc: Global) -> Result<bool, AllocError> {
    let lines = endless_lines(alloc)?;
    is_spent(alloc, b"def loop [] = loop![] run loop![]", 1000, &lines)
}

#[test]
fn fuel_is_spent(rt: HostRuntime) -> Result<(), AllocError> {
    assert!(rt; is_too_little(rt.alloc())?);
    assert!(rt; is_endless(rt.alloc())?);
    Ok(())
}

/// A division by zero traps.
fn is_trapped(alloc: Global) -> Result<bool, AllocError> {
    let text = b"(pr \"a\"); run printi!(div 1 0)";
    let lines = b"4 print a\n5 c0 []\n";
    let at = Span {
        text: 1,
        start: 21,
        end: 30,
    };
    Ok(
        is_spent(alloc, text, 10, lines)?
            && runs(alloc, text, 11, stopped(End::Trap(at), 11), lines)?,
    )
}

/// The first step is the composition's.
fn is_first_quiet(alloc: Global) -> Result<bool, AllocError> {
    match accepted(alloc, b"run print!\"a\"") {
        None => Ok(false),
        Some(core) => {
            let mut machine = Machine::load_core(alloc, core)?;
            if machine.ready() {
                let event = machine.step()?;
                Ok(matches!(event, Event::Quiet))
            } else {
                Ok(false)
            }
        }
    }
}

#[test]
fn divisions_trap_and_compositions_are_quiet(rt: HostRuntime) -> Result<(), AllocError> {
    assert!(rt; is_trapped(rt.alloc())?);
    assert!(rt; is_first_quiet(rt.alloc())?);
    Ok(())
}

/// So many pieces one after the other.
fn repeated(alloc: Global, piece: &[u8], count: usize) -> Result<Vec<u8>, AllocError> {
    let mut text = Vec::new(alloc);
    for _ in 0..count {
        text.extend_from_slice(piece)?;
    }
    Ok(text)
}

/// Whether the run of so many pieces spends this fuel, and shows these lines.
fn do_pieces_spend(
    alloc: Global,
    piece: &[u8],
    count: usize,
    fuel: u64,
    lines: &[u8],
) -> Result<bool, AllocError>
    requires { fuel ≤ FUEL_LIMIT }
{
    let text = repeated(alloc, piece, count)?;
    ends(alloc, &text, fuel, stopped(End::FuelSpent, fuel), lines)
}

/// Processes of a depth of 5,000, or of 4,999, nested on the right, on the left and under channels. Each step of the last
/// two takes time in all that is left.
fn do_deep_processes_run(alloc: Global) -> Result<bool, AllocError> {
    let left = b"4 c0 []\n8 c1 []\n12 c2 []\n";
    Ok(
        do_pieces_spend(alloc, b"run ()\n", 4999, 9998, b"")?
            && do_pieces_spend(alloc, b"[];", 1666, 14, left)?
            && do_pieces_spend(alloc, b"new c:^[]\n", 4999, 50, b"")?,
    )
}

/// The first hundred steps of the deepest process are those of the definition too.
fn does_the_deepest_end(alloc: Global) -> Result<bool, AllocError> {
    let right = repeated(alloc, b"run ()\n", 4999)?;
    runs(alloc, &right, 9999, stopped(End::Done, 9999), b"")
}

#[test]
fn deep_processes_run(rt: HostRuntime) -> Result<(), AllocError> {
    assert!(rt; do_deep_processes_run(rt.alloc())?);
    assert!(rt; does_the_deepest_end(rt.alloc())?);
    Ok(())
}

/// How often words of blocks were touched until the end of the text's run with this fuel; nothing where the text is refused.
fn work_after(alloc: Global, text: &[u8], fuel: u64) -> Result<Option<u64>, AllocError>
    requires { fuel ≤ FUEL_LIMIT }
{
    match run_text(alloc, text, fuel)? {
        Some(ran) => Ok(Some(ran.work)),
        None => Ok(None),
    }
}

/// Whether the run of a text that is longer by one step touches more, and no more than this.
fn costs(alloc: Global, text: &[u8], steps: u64, cost: u64) -> Result<bool, AllocError>
    requires { steps < FUEL_LIMIT }
{
    match (
        work_after(alloc, text, steps)?,
        work_after(alloc, text, steps + 1)?,
    ) {
        (Some(before), Some(after)) => Ok(before < after && after - before <= cost),
        _ => Ok(false),
    }
}

/// 64 times as many words as the instruction of each step and its partner's are large: 2, 4, 4, 3, 5 and 4, 1, and 4.
const COSTS: [u64; 7] = [128, 256, 256, 192, 576, 64, 256];

/// A run that is one step longer touches at most 64 times as many words more as the last step's instruction and its partner's
/// are large. What the shorter run touches as it sets down who has the turn is subtracted. The size of an instruction is 1, the
/// levels in its frame and in those of its parts, and the nodes of its operands and patterns.
fn are_within_costs(alloc: Global) -> Result<bool, AllocError> {
    let text = b"new c:^Int run c!1 run c?n = printi!n";
    for steps in 0..7 {
        if !costs(alloc, text, steps as u64, COSTS[steps])? {
            return Ok(false);
        }
    }
    Ok(true)
}

#[test]
fn steps_work_within_their_costs(rt: HostRuntime) -> Result<(), AllocError> {
    assert!(rt; are_within_costs(rt.alloc())?);
    Ok(())
}
