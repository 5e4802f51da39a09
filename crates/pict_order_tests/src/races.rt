// Small processes made by hand, and all that they can do.

ghost use Rattle.std.specs.Prelude.{ℕ, ◌+◌, ◌<◌, IfOk};
ghost use Rattle.pict_core.specs.Closed.{IsClosed, IsUnder};
ghost use Rattle.pict_core.specs.Plain.{plain_core};

use pict_core::{Core, CorePat, CoreVal, Part};
use pict_orders::{Exploration, Extent, explore};
use pict_syntax::{Bytes, Prim, Span};
use std::alloc::{AllocError, Global};

const HERE: Span = Span {
    text: 1,
    start: 0,
    end: 0,
};

const THERE: Span = Span {
    text: 1,
    start: 7,
    end: 9,
};

/// Two processes beside each other.
fn beside(alloc: Global, left: Core, right: Core) -> Result<Core, AllocError>
    ensures { (n : ℕ) → IsUnder n 0 (plain_core left) → IsUnder n 0 (plain_core right) → IfOk result (λ p. IsUnder n 0 (plain_core p)) }
{
    let left = Part::new(alloc, left)?;
    Ok(Core::Par(left, Part::new(alloc, right)?))
}

/// A text that is sent on the channel of this level.
fn sent(alloc: Global, level: u32, text: &[u8]) -> Result<Core, AllocError>
    ensures { (n : ℕ) → level < n → IfOk result (λ p. IsUnder n 0 (plain_core p)) }
{
    Ok(Core::Out {
        chan: CoreVal::Var(level),
        message: CoreVal::Text(Bytes::copy_of(alloc, text)?),
        at: HERE,
    })
}

/// Reads a text from the channel of level 0, and prints it, again and again or once.
fn printer(alloc: Global, replicated: bool) -> Result<Core, AllocError>
    ensures { IfOk result (λ p. IsUnder 1 0 (plain_core p)) }
{
    let print = Core::Out {
        chan: CoreVal::Prim(Prim::Print),
        message: CoreVal::Var(1),
        at: HERE,
    };
    Ok(Core::In {
        chan: CoreVal::Var(0),
        replicated,
        pattern: CorePat::Bind,
        body: Part::new(alloc, print)?,
    })
}

/// Two texts are sent on a new channel, and one of them is printed, or all by a server.
fn race(alloc: Global, replicated: bool) -> Result<Core, AllocError>
    ensures { IfOk result (λ p. IsClosed (plain_core p)) }
{
    let both = beside(alloc, sent(alloc, 0, b"a")?, sent(alloc, 0, b"b")?)?;
    let all = beside(alloc, both, printer(alloc, replicated)?)?;
    Ok(Core::New(Part::new(alloc, all)?))
}

/// Prints a text.
fn printing(alloc: Global, text: &[u8]) -> Result<Core, AllocError>
    ensures { (n : ℕ) → IfOk result (λ p. IsUnder n 0 (plain_core p)) }
{
    Ok(Core::Out {
        chan: CoreVal::Prim(Prim::Print),
        message: CoreVal::Text(Bytes::copy_of(alloc, text)?),
        at: HERE,
    })
}

/// Four texts are printed, beside each other.
fn four_printings(alloc: Global) -> Result<Core, AllocError>
    ensures { IfOk result (λ p. IsClosed (plain_core p)) }
{
    let first = beside(alloc, printing(alloc, b"a")?, printing(alloc, b"b")?)?;
    let second = beside(alloc, printing(alloc, b"c")?, printing(alloc, b"d")?)?;
    beside(alloc, first, second)
}

/// Prints one text or another, by a truth value.
fn conditional(alloc: Global, test: bool) -> Result<Core, AllocError>
    ensures { (n : ℕ) → IfOk result (λ p. IsUnder n 0 (plain_core p)) }
{
    Ok(Core::If {
        test: CoreVal::Bool(test),
        yes: Part::new(alloc, printing(alloc, b"a")?)?,
        no: Part::new(alloc, printing(alloc, b"b")?)?,
    })
}

/// Two conditionals beside each other.
fn conditionals(alloc: Global) -> Result<Core, AllocError>
    ensures { IfOk result (λ p. IsClosed (plain_core p)) }
{
    beside(alloc, conditional(alloc, true)?, conditional(alloc, false)?)
}

/// Reads a text from the channel of this level, and ends.
fn taker(alloc: Global, level: u32) -> Result<Core, AllocError>
    ensures { (n : ℕ) → level < n → IfOk result (λ p. IsUnder n 0 (plain_core p)) }
{
    Ok(Core::In {
        chan: CoreVal::Var(level),
        replicated: false,
        pattern: CorePat::Any,
        body: Part::new(alloc, Core::Zero)?,
    })
}

/// A text is sent and received on each of two new channels.
fn twins(alloc: Global) -> Result<Core, AllocError>
    ensures { IfOk result (λ p. IsClosed (plain_core p)) }
{
    let first = beside(alloc, sent(alloc, 0, b"a")?, taker(alloc, 0)?)?;
    let second = beside(alloc, sent(alloc, 1, b"a")?, taker(alloc, 1)?)?;
    let both = beside(alloc, first, second)?;
    let inner = Core::New(Part::new(alloc, both)?);
    Ok(Core::New(Part::new(alloc, inner)?))
}

/// Reads from the channel of one level and then from that of the other.
fn both_taken(alloc: Global, first: u32, second: u32) -> Result<Core, AllocError>
    ensures { (n : ℕ) → first < n → second < n → IfOk result (λ p. IsUnder n 0 (plain_core p)) }
{
    let after = taker(alloc, second)?;
    Ok(Core::In {
        chan: CoreVal::Var(first),
        replicated: false,
        pattern: CorePat::Any,
        body: Part::new(alloc, after)?,
    })
}

/// A message on each of two new channels; one process takes the first and then the second, another one takes these two as well, in the same
/// order or in the other one.
fn two_locks(alloc: Global, first: u32, second: u32) -> Result<Core, AllocError>
    requires { (first < 2) × (second < 2) }
    ensures { IfOk result (λ p. IsClosed (plain_core p)) }
{
    let locks = beside(alloc, sent(alloc, 0, b"")?, sent(alloc, 1, b"")?)?;
    let takers = beside(
        alloc,
        both_taken(alloc, 0, 1)?,
        both_taken(alloc, first, second)?,
    )?;
    let both = beside(alloc, locks, takers)?;
    let inner = Core::New(Part::new(alloc, both)?);
    Ok(Core::New(Part::new(alloc, inner)?))
}

/// Divides 1 by 0, for an answer on the channel of level 0.
fn division(alloc: Global) -> Result<Core, AllocError>
    ensures { IfOk result (λ p. IsUnder 1 0 (plain_core p)) }
{
    let mut positional = Vec::new(alloc);
    positional.push(CoreVal::Int(1))?;
    positional.push(CoreVal::Int(0))?;
    positional.push(CoreVal::Var(0))?;
    Ok(Core::Out {
        chan: CoreVal::Prim(Prim::Divide),
        message: CoreVal::Fields {
            positional,
            labelled: Vec::new(alloc),
        },
        at: THERE,
    })
}

/// A division by zero beside a printing.
fn trap(alloc: Global) -> Result<Core, AllocError>
    ensures { IfOk result (λ p. IsClosed (plain_core p)) }
{
    let both = beside(alloc, division(alloc)?, printing(alloc, b"a")?)?;
    Ok(Core::New(Part::new(alloc, both)?))
}

/// What may come of a process: the bytes that are printed, and how many processes are left, none of which is ready.
type Outcome<'a> = (&'a [u8], usize);

/// Whether this comes of the process in a vertex that is found.
fn ends(exploration: &Exploration, outcome: Outcome) -> bool {
    let (bytes, count) = outcome;
    for found in &exploration.found {
        if found.bytes.as_slice() == bytes
            && found.state.ready_count() == 0
            && found.state.entries().len() == count
        {
            return true;
        }
    }
    false
}

/// How many vertices are found in which none is ready.
fn count_ends(exploration: &Exploration) -> usize {
    let mut count = 0usize;
    for found in &exploration.found {
        if found.state.ready_count() == 0 {
            count = count.saturating_add(1);
        }
    }
    count
}

/// Whether all that the process can do is found: so many vertices, in so many of which none is ready, and these two outcomes.
fn does(
    alloc: Global,
    process: Core,
    found: usize,
    ended: usize,
    first: Outcome,
    second: Outcome,
) -> Result<bool, AllocError>
    requires { IsClosed (plain_core process) }
{
    let exploration = explore(alloc, process, 100)?;
    Ok(
        exploration.extent == Extent::All
            && exploration.found.len() == found
            && count_ends(&exploration) == ended
            && ends(&exploration, first)
            && ends(&exploration, second),
    )
}

/// One text is received and then printed, while the other one waits for ever.
fn does_a_race(alloc: Global) -> Result<bool, AllocError> {
    does(alloc, race(alloc, false)?, 5, 2, (b"a", 1), (b"b", 1))
}

/// The server receives one text and then the other, and prints them in either order: four vertices where nothing is printed, two where
/// `a` is, two where `b` is, and one for each order of both.
fn does_a_server(alloc: Global) -> Result<bool, AllocError> {
    does(alloc, race(alloc, true)?, 10, 2, (b"ab", 1), (b"ba", 1))
}

#[test]
fn races_have_two_outcomes(rt: HostRuntime) -> Result<(), AllocError> {
    assert!(rt; does_a_race(rt.alloc())?);
    assert!(rt; does_a_server(rt.alloc())?);
    Ok(())
}

/// Up to names one takes its first lock. Then it takes the second one, and the other waits for ever; or the other takes its first lock,
/// and both wait for ever.
fn do_opposite_locks(alloc: Global) -> Result<bool, AllocError> {
    does(alloc, two_locks(alloc, 1, 0)?, 4, 2, (b"", 1), (b"", 2))
}

/// Up to names one takes the first lock, and then the second one; the other waits for ever.
fn do_like_locks(alloc: Global) -> Result<bool, AllocError> {
    does(alloc, two_locks(alloc, 0, 1)?, 3, 1, (b"", 1), (b"", 1))
}

#[test]
fn locks_in_opposite_orders_end_in_a_deadlock(rt: HostRuntime) -> Result<(), AllocError> {
    assert!(rt; do_opposite_locks(rt.alloc())?);
    assert!(rt; do_like_locks(rt.alloc())?);
    Ok(())
}

/// Whether it is found that the first two vertices divide by zero, and no other, at the place of the division.
fn divide(exploration: &Exploration) -> bool {
    match exploration.traps.as_slice() {
        [first, second] => {
            matches!((first.vertex, second.vertex), (0, 1) | (1, 0))
                && first.at.start == THERE.start
                && second.at.start == THERE.start
        }
        _ => false,
    }
}

/// Before the printing and after it.
fn are_divisions_found(alloc: Global) -> Result<bool, AllocError> {
    let exploration = explore(alloc, trap(alloc)?, 100)?;
    Ok(
        exploration.extent == Extent::All
            && exploration.found.len() == 2
            && count_ends(&exploration) == 0
            && divide(&exploration),
    )
}

fn is_ended_by_a_limit(alloc: Global) -> Result<bool, AllocError> {
    let exploration = explore(alloc, race(alloc, false)?, 2)?;
    Ok(exploration.extent == Extent::Limit && exploration.found.len() == 2)
}

#[test]
fn divisions_are_found_and_a_limit_ends_the_search(rt: HostRuntime) -> Result<(), AllocError> {
    assert!(rt; are_divisions_found(rt.alloc())?);
    assert!(rt; is_ended_by_a_limit(rt.alloc())?);
    Ok(())
}

/// They are printed in each order.
fn do_printings(alloc: Global) -> Result<bool, AllocError> {
    let found = 1 + 4 + 12 + 24 + 24;
    does(
        alloc,
        four_printings(alloc)?,
        found,
        24,
        (b"dbca", 0),
        (b"abcd", 0),
    )
}

/// They are taken at once: what is found is what two printings beside each other can do.
fn do_conditionals(alloc: Global) -> Result<bool, AllocError> {
    does(
        alloc,
        conditionals(alloc)?,
        1 + 2 + 2,
        2,
        (b"ab", 0),
        (b"ba", 0),
    )
}

/// One or the other is received first, which is one vertex.
fn do_twins(alloc: Global) -> Result<bool, AllocError> {
    does(alloc, twins(alloc)?, 3, 1, (b"", 0), (b"", 0))
}

#[test]
fn orders_are_told_apart_where_they_differ(rt: HostRuntime) -> Result<(), AllocError> {
    assert!(rt; do_printings(rt.alloc())?);
    assert!(rt; do_conditionals(rt.alloc())?);
    assert!(rt; do_twins(rt.alloc())?);
    Ok(())
}
