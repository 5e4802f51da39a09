// Values and their texts.
use pict_core::CoreVal;
use pict_show::write_value;
use pict_syntax::{Bytes, Name, Names, Prim};
use std::alloc::{AllocError, Global};

// The names set and get, in this order.
fn set_and_get(alloc: Global) -> Result<Names, AllocError> {
    let mut names = Names::new(alloc);
    names.intern(b"set")?;
    names.intern(b"get")?;
    Ok(names)
}

// Whether a value has this text, by these names.
fn shows(alloc: Global, names: &Names, value: CoreVal, text: &[u8]) -> bool {
    let mut out = Vec::new(alloc);
    match write_value(alloc, &mut out, names, &value) {
        Ok(()) => out.as_slice() == text,
        Err(_) => false,
    }
}

fn are_numbers_shown(alloc: Global, names: &Names) -> bool {
    shows(alloc, names, CoreVal::Var(0), b"s0")
        && shows(alloc, names, CoreVal::Chan(4294967295), b"c4294967295")
        && shows(alloc, names, CoreVal::Int(0), b"0")
        && shows(
            alloc,
            names,
            CoreVal::Int(-9223372036854775808),
            b"-9223372036854775808",
        )
        && shows(alloc, names, CoreVal::Bool(true), b"true")
        && shows(alloc, names, CoreVal::Bool(false), b"false")
}

fn are_characters_shown(alloc: Global, names: &Names) -> bool {
    shows(alloc, names, CoreVal::Prim(Prim::Join), b"+$")
        && shows(alloc, names, CoreVal::Prim(Prim::Printi), b"printi")
        && shows(alloc, names, CoreVal::Char(b'\''), b"'\\''")
        && shows(alloc, names, CoreVal::Char(b'"'), b"'\"'")
        && shows(alloc, names, CoreVal::Char(0), b"'\\x00'")
}

fn is_string_shown(alloc: Global, names: &Names) -> Result<bool, AllocError> {
    let string = Bytes::copy_of(alloc, b"a~ \t\n\\\"'\x7f\xff")?;
    let text = b"\"a~ \\t\\n\\\\\\\"'\\x7f\\xff\"";
    Ok(shows(alloc, names, CoreVal::Text(string), text))
}

// The record with no fields.
fn empty(alloc: Global) -> CoreVal {
    CoreVal::Fields {
        positional: Vec::new(alloc),
        labelled: Vec::new(alloc),
    }
}

// The record [get=2 set=s3].
fn inner(alloc: Global) -> Result<CoreVal, AllocError> {
    Ok(CoreVal::Fields {
        positional: Vec::new(alloc),
        labelled: vec![in alloc; (Name(1), CoreVal::Int(2)), (Name(0), CoreVal::Var(3))]?,
    })
}

// The record [[] c1 set=V], where V is a value.
fn outer(alloc: Global, value: CoreVal) -> Result<CoreVal, AllocError> {
    let labelled = vec![in alloc; (Name(0), value)]?;
    Ok(CoreVal::Fields {
        positional: vec![in alloc; empty(alloc), CoreVal::Chan(1)]?,
        labelled,
    })
}

fn are_records_shown(alloc: Global, names: &Names) -> Result<bool, AllocError> {
    let value = outer(alloc, inner(alloc)?)?;
    Ok(
        shows(alloc, names, empty(alloc), b"[]")
            && shows(alloc, names, inner(alloc)?, b"[get=2 set=s3]")
            && shows(alloc, names, value, b"[[] c1 set=[get=2 set=s3]]"),
    )
}

// Whether all of these values have their texts.
fn are_shown(alloc: Global) -> Result<bool, AllocError> {
    let names = set_and_get(alloc)?;
    Ok(
        are_numbers_shown(alloc, &names)
            && are_characters_shown(alloc, &names)
            && is_string_shown(alloc, &names)?
            && are_records_shown(alloc, &names)?,
    )
}

#[test]
fn values_are_shown(rt: HostRuntime) -> Result<(), AllocError> {
    assert!(rt; are_shown(rt.alloc())?);
    Ok(())
}
