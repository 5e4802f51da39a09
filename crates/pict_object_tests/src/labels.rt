// Labels and their numbers, and objects that are too big.

ghost use Rattle.std.specs.Prelude.{◌<◌, ◌^◌, length};
ghost use Rattle.pict_core.specs.Plain.{plain_core};
ghost use Rattle.pict_object.specs.Cores.{IsObjectCore};

use pict_core::{Core, CoreVal};
use pict_object::{EncodeError, decode, encode};
use pict_syntax::{Name, Names, Prim};
use std::alloc::Global;

// print!"hello" beside nothing.
const HELLO: [u8; 24] = [
    0x50, 0x49, 0x43, 0x54, 1, 0, 0, 0, 0, 1, 3, 0x16, 0, 0x15, 0, 0, 0, 5, 0x68, 0x65, 0x6c, 0x6c,
    0x6f, 0,
];

// print![a=false b=true]
const FIELDS: [u8; 41] = [
    0x50, 0x49, 0x43, 0x54, 1, 0, 0, 0, 2, 0, 0, 0, 1, 0x61, 0, 0, 0, 1, 0x62, 3, 0x16, 0, 0x17, 0,
    0, 0, 0, 0, 0, 0, 2, 0, 0, 0, 0, 0x13, 0, 0, 0, 1, 0x14,
];

// Whether the process prints `hello` beside nothing.
fn prints_hello(core: &Core) -> bool {
    let Core::Par(first, second) = core else {
        return false;
    };
    match (first.core(), second.core()) {
        (Core::Out { chan, message, .. }, Core::Zero) => {
            matches!(chan, CoreVal::Prim(Prim::Print)) && is_text(message, b"hello")
        }
        _ => false,
    }
}

fn is_text(value: &CoreVal, text: &[u8]) -> bool {
    match value {
        CoreVal::Text(bytes) => bytes.slice() == text,
        _ => false,
    }
}

/// Whether the object of a process has these bytes.
fn is_object_of(alloc: Global, names: &Names, core: &Core, wanted: &[u8]) -> bool
    requires core { IsObjectCore names.now (plain_core core.now) }
    requires short { length wanted.now < 2 ^ 32 }
{
    let length = wanted.len() as u64;
    match encode(alloc, names, core, length) {
        Ok(object) => object.as_slice() == wanted,
        Err(_) => false,
    }
}

/// Whether the object of a process is too big for this limit, as it has so many bytes.
fn is_too_big(alloc: Global, names: &Names, core: &Core, limit: u64, wanted: u64) -> bool
    requires core { IsObjectCore names.now (plain_core core.now) }
    requires limit { limit < 2 ^ 32 }
{
    match encode(alloc, names, core, limit) {
        Err(EncodeError::TooBig(length)) => length == wanted,
        _ => false,
    }
}

/// The object is too big for a limit of a byte less than it has, and isn't at its own length.
fn is_read_and_written(alloc: Global) -> bool {
    let mut names = Names::new(alloc);
    match decode(alloc, &mut names, &HELLO) {
        Ok(core) => {
            prints_hello(&core)
                && is_too_big(alloc, &names, &core, 23, 24)
                && is_object_of(alloc, &names, &core, &HELLO)
        }
        Err(_) => false,
    }
}

/// Whether names are these, and no other.
fn are_names(names: &Names, first: &[u8], second: &[u8]) -> bool {
    names.text(Name(0)) == first
        && names.text(Name(1)) == second
        && names.text(Name(2)) == b"".as_slice()
}

/// The names keep what they have, and gain the labels that they lack; and the object of the process is the same, whatever numbers
/// its labels have.
#[tactic(auto, using(crate::proofs::Few::few_more))]
fn have_numbers_of_names(alloc: Global) -> bool {
    let mut names = Names::new(alloc);
    let Ok(_) = names.intern(b"b") else {
        return false;
    };
    match decode(alloc, &mut names, &FIELDS) {
        Ok(core) => are_names(&names, b"b", b"a") && is_object_of(alloc, &names, &core, &FIELDS),
        Err(_) => false,
    }
}

#[test]
fn objects_are_read_and_written(rt: HostRuntime) {
    assert!(rt; is_read_and_written(rt.alloc()));
    assert!(rt; have_numbers_of_names(rt.alloc()));
}
