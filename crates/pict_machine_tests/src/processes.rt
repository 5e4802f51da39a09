// Core terms at their greatest depth, their codes, and the calls that take memory.

use pict_core::{Core, CorePat, CoreVal, Part, depth, match_value, substitute};
use pict_lower::lower;
use pict_syntax::{Bytes, Name, Prim, Span};
use std::alloc::{AllocError, Global};

const HERE: Span = Span {
    text: 1,
    start: 0,
    end: 0,
};

// How a process is nested.
#[derive(Clone, Copy)]
enum Nesting {
    Left,
    Right,
    New,
    Body,
    Branch,
}

// One level more around the process.
fn wrap(alloc: Global, nesting: Nesting, process: Core) -> Result<Core, AllocError> {
    let part = Part::new(alloc, process)?;
    let nothing = Part::new(alloc, Core::Zero)?;
    match nesting {
        Nesting::Left => Ok(Core::Par(part, nothing)),
        Nesting::Right => Ok(Core::Par(nothing, part)),
        Nesting::New => Ok(Core::New(part)),
        Nesting::Body => Ok(Core::In {
            chan: CoreVal::Var(0),
            replicated: false,
            pattern: CorePat::Any,
            body: part,
        }),
        Nesting::Branch => Ok(Core::If {
            test: CoreVal::Bool(true),
            yes: part,
            no: nothing,
        }),
    }
}

// A process of this depth.
fn nested(alloc: Global, nesting: Nesting, levels: u64) -> Result<Core, AllocError> {
    let mut process = Core::Out {
        chan: CoreVal::Prim(Prim::Print),
        message: CoreVal::Var(0),
        at: HERE,
    };
    for _ in 1..levels {
        process = wrap(alloc, nesting, process)?;
    }
    Ok(process)
}

// Whether a process of the greatest depth is copied and substituted as deep, and dropped.
fn stays_deep(alloc: Global, nesting: Nesting) -> Result<bool, AllocError> {
    let process = nested(alloc, nesting, 5000)?;
    let copy = process.copy(alloc)?;
    let substituted = substitute(alloc, &copy, &[CoreVal::Int(1)])?;
    Ok(depth(&process) == 5000 && depth(&copy) == 5000 && depth(&substituted) == 5000)
}

// A long process is dropped.
fn is_dropped(alloc: Global) -> Result<bool, AllocError> {
    Ok(matches!(nested(alloc, Nesting::Right, 200000)?, Core::Par(_, _)))
}

#[test]
fn deep_processes_are_copied_substituted_and_dropped(rt: HostRuntime) -> Result<(), AllocError> {
    let alloc = rt.alloc();
    assert!(rt; stays_deep(alloc, Nesting::Left)?);
    assert!(rt; stays_deep(alloc, Nesting::Right)?);
    assert!(rt; stays_deep(alloc, Nesting::New)?);
    assert!(rt; stays_deep(alloc, Nesting::Body)?);
    assert!(rt; stays_deep(alloc, Nesting::Branch)?);
    assert!(rt; is_dropped(alloc)?);
    Ok(())
}

// How many nodes the code of a process has that is nested so.
fn count_nodes(alloc: Global, nesting: Nesting, levels: u64) -> Result<usize, AllocError> {
    Ok(lower(alloc, &nested(alloc, nesting, levels)?)?.nodes.len())
}

// Compositions nested on the left to the greatest depth, and on the right far past it.
#[test]
fn deep_processes_have_codes(rt: HostRuntime) -> Result<(), AllocError> {
    assert!(rt; count_nodes(rt.alloc(), Nesting::Left, 5000)? == 9999);
    assert!(rt; count_nodes(rt.alloc(), Nesting::Right, 20001)? == 40001);
    Ok(())
}

// The record [7 "ab" l=true].
fn record(alloc: Global) -> Result<CoreVal, AllocError> {
    let text = CoreVal::Text(Bytes::copy_of(alloc, b"ab")?);
    let positional = vec![in alloc; CoreVal::Int(7), text]?;
    Ok(CoreVal::Fields {
        positional,
        labelled: vec![in alloc; (Name(3), CoreVal::Bool(true))]?,
    })
}

// The pattern [_ x l=y].
fn pattern(alloc: Global) -> Result<CorePat, AllocError> {
    let positional = vec![in alloc; CorePat::Any, CorePat::Bind]?;
    Ok(CorePat::Fields {
        positional,
        labelled: vec![in alloc; (Name(3), CorePat::Bind)]?,
    })
}

// What a copy of the pattern binds in a value.
fn found(alloc: Global, value: &CoreVal) -> Result<Option<Vec<CoreVal>>, AllocError> {
    let pattern = pattern(alloc)?;
    match_value(alloc, &pattern.copy(alloc)?, value)
}

// Whether these are the values of the record that the pattern binds.
fn are_bound(values: &[CoreVal]) -> bool {
    match values {
        [CoreVal::Text(bytes), CoreVal::Bool(b)] => *b && bytes.slice() == b"ab".as_slice(),
        _ => false,
    }
}

fn are_fields_bound(alloc: Global) -> Result<bool, AllocError> {
    let record = record(alloc)?;
    match found(alloc, &record.copy(alloc)?)? {
        Some(bound) => Ok(are_bound(&bound)),
        None => Ok(false),
    }
}

#[test]
fn a_record_pattern_binds_its_fields(rt: HostRuntime) -> Result<(), AllocError> {
    assert!(rt; are_fields_bound(rt.alloc())?);
    assert!(rt; found(rt.alloc(), &CoreVal::Int(7))?.is_none());
    Ok(())
}
