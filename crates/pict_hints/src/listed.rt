// What could stand somewhere, as a text: whole classes by their names, then single tokens.

use crate::kinds::{
    DECLARATION, KINDS, PATTERN, PROCESS, RIGHTS, SYMBOLS, TYPE, VALUE, holds_all, holds_symbols,
    name_of,
};
use pict_follow::Class;
use std::alloc::{AllocError, Global};

/// A part of the list.
#[derive(Clone, Copy, Debug)]
enum Part {
    Value,
    Process,
    Types,
    Pattern,
    Declaration,
    Symbols,
    One(Class),
    End,
}

impl Part {
    fn text(self) -> &'static str {
        match self {
            Part::Value => "a value",
            Part::Process => "a process",
            Part::Types => "a type",
            Part::Pattern => "a pattern",
            Part::Declaration => "a declaration",
            Part::Symbols => "a symbol name",
            Part::One(class) => name_of(class),
            Part::End => "the end of the text",
        }
    }
}

/// The parts so far, and the kinds of which they speak.
#[derive(Drop)]
struct Parts {
    parts: Vec<Part>,
    spoken: Vec<Class>,
}

impl Parts {
    /// Adds a class, of which these are the kinds.
    fn class(&mut self, part: Part, kinds: &[Class]) -> Result<(), AllocError> {
        self.parts.push(part)?;
        self.spoken.extend_from_slice(kinds)
    }

    /// Adds a class, of which these are the kinds, and the symbol names.
    fn class_with_symbols(&mut self, part: Part, kinds: &[Class]) -> Result<(), AllocError> {
        self.class(part, kinds)?;
        self.spoken.extend_from_slice(&SYMBOLS)
    }
}

/// Writes what could stand somewhere, and whether the text may end there.
pub fn put_listed(
    alloc: Global,
    out: &mut Vec<u8>,
    could: &[Class],
    ends: bool,
) -> Result<(), AllocError> {
    let mut parts = Parts {
        parts: Vec::new(alloc),
        spoken: Vec::new(alloc),
    };
    add_values(&mut parts, could)?;
    add_others(&mut parts, could)?;
    add_single(&mut parts, could)?;
    if ends {
        parts.parts.push(Part::End)?;
    }
    put_parts(out, &parts.parts)
}

/// Values, processes, types and patterns.
fn add_values(parts: &mut Parts, could: &[Class]) -> Result<(), AllocError> {
    let symbols = holds_symbols(could);
    let value = symbols && holds_all(could, &VALUE);
    let types = holds_all(could, &TYPE);
    let pattern = holds_all(could, &PATTERN);
    if value {
        parts.class_with_symbols(Part::Value, &VALUE)?;
    } else if symbols && holds_all(could, &PROCESS) && !types && !pattern {
        parts.class_with_symbols(Part::Process, &PROCESS)?;
    }
    if types {
        parts.class(Part::Types, &TYPE)?;
        if !value && holds_all(could, &RIGHTS) {
            parts.spoken.push(RIGHTS[0])?;
            parts.spoken.push(RIGHTS[1])?;
        }
    } else if pattern && !value {
        parts.class(Part::Pattern, &PATTERN)?;
    }
    Ok(())
}

/// Declarations and symbol names.
fn add_others(parts: &mut Parts, could: &[Class]) -> Result<(), AllocError> {
    if holds_all(could, &DECLARATION) {
        parts.class(Part::Declaration, &DECLARATION)?;
    }
    if holds_symbols(could) && !parts.spoken.contains(&SYMBOLS[0]) {
        parts.class(Part::Symbols, &SYMBOLS)?;
    }
    Ok(())
}

/// Single kinds of which no class speaks: a symbol name by itself where not each of them could stand.
fn add_single(parts: &mut Parts, could: &[Class]) -> Result<(), AllocError> {
    for class in &KINDS {
        if could.contains(class) && !parts.spoken.contains(class) {
            parts.parts.push(Part::One(*class))?;
        }
    }
    Ok(())
}

/// Writes parts, with commas between them and `or` before the last.
fn put_parts(out: &mut Vec<u8>, parts: &[Part]) -> Result<(), AllocError> {
    if parts.is_empty() {
        return out.extend_from_slice(b"nothing");
    }
    for (index, part) in parts.iter().enumerate() {
        if index > 0 && index.saturating_add(1) == parts.len() {
            out.extend_from_slice(b" or ")?;
        } else if index > 0 {
            out.extend_from_slice(b", ")?;
        }
        out.extend_from_slice(part.text().as_bytes())?;
    }
    Ok(())
}
