// What is found for the type fields of a record.

ghost use Rattle.std.specs.Prelude.{◌≡◌, ◌-◌, ◌<◌, ◌&&◌, nat_le, true, false, length, vec_len, IfOk, IfNone, IfSome, OnErr};
ghost use Rattle.pict_types.specs.Plain.{plain};
ghost use Rattle.pict_rules.specs.Found.{find, is_missing_variable, is_same_head};
ghost use Rattle.pict_match.specs.PlainFound.{found_in};

use pict_types::{Ty, Variables, lower_type, mentions};
use std::alloc::{AllocError, Global};

/// For each type field of a record, in order, the type argument that is found, or none yet. No operator is ever found.
#[derive(Drop)]
pub struct Found {
    pub list: Vec<Option<Ty>>,
}

/// The place of the type field that variable `i`, under so many inner variables, is; nothing where it is none of the
/// type fields, or its argument is found.
#[tactic(auto, using(crate::proofs::Slots::slot_rules))]
fn missing_place(inner: usize, i: u32, found: &Found) -> Option<usize>
    ensures none { IfNone result ((nat_le inner i && is_missing_variable (found_in found.now) (i - inner)) ≡ false) }
    ensures some { IfSome result (λ p. (nat_le inner i && is_missing_variable (found_in found.now) (i - inner)) ≡ true) }
    ensures inside { IfSome result (λ p. p < vec_len found.now.list) }
    ensures place { IfSome result (λ p. p ≡ length (found_in found.now) - 1 - (i - inner)) }
{
    let i = i as usize;
    if i < inner {
        return None;
    }
    let list = found.list.as_slice();
    if i - inner >= list.len() {
        return None;
    }
    let place = list.len() - 1 - (i - inner);
    match list[place] {
        None => Some(place),
        Some(_) => None,
    }
}

/// Adds what the wanted variable `i` finds in the given type, both under so many inner variables: a type field that isn't
/// found yet becomes what is given, unless this mentions an inner variable.
///
/// The only error is want of memory, and it leaves what is found as it was.
#[tactic(auto, using(crate::proofs::Slots::find_rules))]
pub fn find(
    alloc: Global,
    inner: usize,
    i: u32,
    given: &Ty,
    found: &mut Found,
) -> Result<(), AllocError>
    ensures found { IfOk result (λ _. found_in found.new ≡ find inner i (plain given.now) (found_in found.old)) }
    ensures same { OnErr result (found_in found.new ≡ found_in found.old) }
{
    let Some(place) = missing_place(inner, i, found) else {
        return Ok(());
    };
    let inner = inner as u32;
    if mentions(given, &Variables::Innermost(inner))? {
        return Ok(());
    }
    let lowered = lower_type(alloc, given, inner)?;
    found.list[place] = Some(lowered);
    Ok(())
}

/// Whether operator variable `given` is the wanted one, both under so many inner variables, the wanted one under the type
/// fields too. No type field is: an operator is never found.
#[tactic(auto, using(crate::proofs::Slots::head_rules))]
pub fn is_same_head(inner: usize, wanted: u32, given: u32, found: &Found) -> bool
    ensures { result ≡ is_same_head inner (length (found_in found.now)) wanted given }
{
    let wanted = wanted as usize;
    let given = given as usize;
    if wanted < inner {
        return wanted == given;
    }
    let fields = found.list.as_slice().len();
    wanted - inner >= fields && wanted - fields == given
}
