// Program texts and how many nodes and levels their codes have: a counter server, the three rings of the load of 42, and many names.

use crate::translation::{COUNTER, PRELUDE, derived, joined};
use pict_code::Code;
use pict_load::load_text;
use pict_lower::lower;
use pict_syntax::Names;
use std::alloc::{AllocError, Global};

/// How many nodes a code has, how many levels its frames have together, and the longest of them.
fn measured(code: &Code) -> (u64, u64, u64) {
    let mut nodes: u64 = 0;
    let mut levels: u64 = 0;
    let mut longest: u64 = 0;
    for node in &code.nodes {
        let length = node.frame.len() as u64;
        nodes = nodes.saturating_add(1);
        levels = levels.saturating_add(length);
        longest = longest.max(length);
    }
    (nodes, levels, longest)
}

fn measures(alloc: Global, text: &[u8], wanted: (u64, u64, u64)) -> Result<bool, AllocError> {
    let mut names = Names::new(alloc);
    match derived(alloc, &mut names, text) {
        Some(Ok(core)) => Ok(measured(&lower(alloc, &core)?) == wanted),
        _ => Ok(false),
    }
}

/// A reader of 200 values, with 200 empty processes beside each other and then an output of all these values and the channel's.
fn many_names(alloc: Global) -> Result<String, AllocError> {
    let mut names = String::new(alloc);
    let mut parts = String::new(alloc);
    for n in 0..200 {
        names.push_str(format!(in alloc; " x{n}")?.as_str())?;
        parts.push_str("run () ")?;
    }
    format!(in alloc; "new c:Top run c?[{names}] = ({parts}print![c{names}])")
}

/// The reader and what stands beside it have one level, and each of the 200 compositions and the output have 201.
fn are_two_hundred_names(alloc: Global) -> Result<bool, AllocError> {
    let text = many_names(alloc)?;
    measures(alloc, text.as_bytes(), (405, 40403, 201))
}

fn is_server_measured(alloc: Global) -> Result<bool, AllocError> {
    let server = joined(alloc, &[PRELUDE, COUNTER])?;
    measures(alloc, &server, (168, 550, 8))
}

fn are_rings_measured(alloc: Global) -> Result<bool, AllocError> {
    measures(alloc, &load_text(alloc, 42)?, (6475, 85367, 183))
}

#[test]
fn texts_have_codes_of_these_sizes(rt: HostRuntime) -> Result<(), AllocError> {
    assert!(rt; are_two_hundred_names(rt.alloc())?);
    assert!(rt; is_server_measured(rt.alloc())?);
    assert!(rt; are_rings_measured(rt.alloc())?);
    Ok(())
}
