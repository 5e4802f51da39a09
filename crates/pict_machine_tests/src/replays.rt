// Replay files of values that no text nests so deep, and lines of choices. What is said of other files stands in the tables of calls.
ghost use Rattle.std.specs.Prelude.{ℕ, IfOk};
ghost use Rattle.pict_core.specs.Closed.{IsOver};
ghost use Rattle.pict_core.specs.Plain.{plain_core, plain_val};
ghost use Rattle.pict_machine_tests.specs.Gentle.{IsGentleOver};

use pict_core::{Core, CorePat, CoreVal, Part};
use pict_lower::lower;
use pict_replay::{ChoicesError, FileError, Verdict, read_choices, read_file, replay};
use pict_syntax::{Names, Span};
use std::alloc::{AllocError, Global};

const HERE: Span = Span {
    text: 1,
    start: 0,
    end: 0,
};

/// What is said of a text as a replay file.
#[derive(Clone, Copy, Debug, PartialEq, Eq)]
enum Told {
    /// It is none, at this byte.
    NoFile(usize),
    /// What replaying it says.
    Said(Verdict),
}

/// Two processes beside each other.
fn beside(alloc: Global, left: Core, right: Core) -> Result<Core, AllocError>
    ensures { (n : ℕ) → IsGentleOver n (plain_core left) → IsGentleOver n (plain_core right) → IfOk result (λ p. IsGentleOver n (plain_core p)) }
{
    let left = Part::new(alloc, left)?;
    Ok(Core::Par(left, Part::new(alloc, right)?))
}

/// A new channel, on which this value is sent and received.
fn meeting(alloc: Global, message: CoreVal) -> Result<Core, AllocError>
    requires { IsOver 1 0 (plain_val message) }
    ensures { IfOk result (λ p. IsGentleOver 0 (plain_core p)) }
{
    let output = Core::Out {
        chan: CoreVal::Var(0),
        message,
        at: HERE,
    };
    let input = Core::In {
        chan: CoreVal::Var(0),
        replicated: false,
        pattern: CorePat::Any,
        body: Part::new(alloc, Core::Zero)?,
    };
    let both = beside(alloc, output, input)?;
    Ok(Core::New(Part::new(alloc, both)?))
}

/// What is said of a text as a replay file of a process, by names whose first is `a`. The text is short.
fn answer(alloc: Global, process: &Core, text: &[u8]) -> Result<Told, AllocError>
    requires { IsGentleOver 0 (plain_core process.now) }
{
    if text.len() > 10_000 {
        return Err(AllocError);
    }
    let mut names = Names::new(alloc);
    names.intern(b"a")?;
    let file = match read_file(alloc, &mut names, text) {
        Ok(file) => file,
        Err(FileError::NoFile(at)) => return Ok(Told::NoFile(at)),
        Err(FileError::Memory) => return Err(AllocError),
    };
    let code = lower(alloc, process)?;
    let verdict = replay(alloc, code, &file.choices, &file.expected)?;
    Ok(Told::Said(verdict))
}

/// So many records, each the one field of the next, around 1.
fn nested(alloc: Global, depth: u32) -> Result<CoreVal, AllocError>
    ensures { IfOk result (λ v. IsOver 1 0 (plain_val v)) }
{
    let mut value = CoreVal::Int(1);
    for _ in 0..depth {
        let mut positional = Vec::new(alloc);
        positional.push(value)?;
        value = CoreVal::Fields {
            positional,
            labelled: Vec::new(alloc),
        };
    }
    Ok(value)
}

// Behind these bytes this byte, so many times.
fn repeat(out: &mut Vec<u8>, byte: u8, count: u32) -> Result<(), AllocError> {
    for _ in 0..count {
        out.push(byte)?;
    }
    Ok(())
}

/// A replay file of a process that is a meeting: what is received is so many records around this byte.
fn file_of(alloc: Global, depth: u32, inner: u8) -> Result<Vec<u8>, AllocError> {
    let mut text = b"0 0\n0 0\n0 0\n0 0\ntrace\n4 c0 ".to_vec(alloc)?;
    repeat(&mut text, b'[', depth)?;
    text.push(inner)?;
    repeat(&mut text, b']', depth)?;
    text.push(b'\n')?;
    Ok(text)
}

/// What is said of a meeting at which a value so deep is received that is this one in the file.
fn deep(alloc: Global, inner: u8) -> Result<Told, AllocError> {
    let process = meeting(alloc, nested(alloc, 1_000)?)?;
    answer(alloc, &process, &file_of(alloc, 1_000, inner)?)
}

#[test]
fn deep_values(rt: HostRuntime) -> Result<(), AllocError> {
    assert!(rt; deep(rt.alloc(), b'1')? == Told::Said(Verdict::Yes));
    assert!(rt; deep(rt.alloc(), b'2')? == Told::Said(Verdict::No(4)));
    Ok(())
}

/// What is said of a text as lines of choices.
#[derive(Clone, Copy, Debug, PartialEq, Eq)]
enum Lines {
    /// So many choices, of which the last has these numbers.
    Choices(usize, u64, u64),
    /// This line is none.
    Bad(u64),
}

fn said_of(alloc: Global, text: &[u8]) -> Result<Lines, AllocError> {
    match read_choices(alloc, text) {
        Ok(choices) => match choices.last() {
            Some(choice) => Ok(Lines::Choices(choices.len(), choice.ready, choice.partner)),
            None => Ok(Lines::Choices(0, 0, 0)),
        },
        Err(ChoicesError::Bad(number)) => Ok(Lines::Bad(number)),
        Err(ChoicesError::Memory) => Err(AllocError),
    }
}

/// Texts, and what is said of them.
const TEXTS: [(&[u8], Lines); 8] = [
    (b"", Lines::Choices(0, 0, 0)),
    (b"0 0\n1 0\n", Lines::Choices(2, 1, 0)),
    (
        b"3 18446744073709551615\n",
        Lines::Choices(1, 3, 18446744073709551615),
    ),
    (b"3 18446744073709551616\n", Lines::Bad(1)),
    (b"0 0\n01 0\n", Lines::Bad(2)),
    (b"0 0\n1 0", Lines::Bad(2)),
    (b"0 0\n\n", Lines::Bad(2)),
    (b"0  0\n", Lines::Bad(1)),
];

/// The first text of the table of which something else is said.
fn told_otherwise(alloc: Global) -> Result<Option<&'static [u8]>, AllocError> {
    for (text, expected) in &TEXTS {
        if said_of(alloc, text)? != *expected {
            return Ok(Some(text));
        }
    }
    Ok(None)
}

#[test]
fn lines_of_choices(rt: HostRuntime) -> Result<(), AllocError> {
    assert!(rt; told_otherwise(rt.alloc())? == None);
    Ok(())
}
