// Types that become Top.

ghost use Rattle.std.specs.Prelude.{◌≡◌, ◌<◌, length, IfNone, IfSome};
ghost use Rattle.pict_normal.specs.Meanings.{meanings};
ghost use Rattle.pict_types.specs.Types.{is_top};
ghost use Rattle.pict_types.specs.Entries.{Definition};
ghost use Rattle.pict_normal.specs.Around.{around};
ghost use Rattle.pict_types.specs.Plain.{plain, plain_arg, plain_types};
ghost use Rattle.pict_normal.specs.Raw.{IsNoDefinition};
ghost use Rattle.pict_types.specs.Places.{IsWhatAt};
ghost use Rattle.pict_types.specs.Replacing.{applied, apply_head, head_in, replace, replace_types};
ghost use Rattle.pict_types.specs.Types.{Var};

use crate::binders::Binders;
use pict_types::{Arg, Context, Ty, What};

/// Whether a type is `Top` once the definitions of the context are put for their variables.
#[cycle(tops)]
#[tactic(auto, using(crate::proofs::BecomingTop::top_rules))]
pub fn becomes_top(t: &Ty, c: &Context, inner: &Binders) -> bool
    ensures { result ≡ is_top (replace (meanings (around inner.now c.now)) (plain t.now)) }
{
    match t {
        Ty::Top => true,
        Ty::Var(i) => match definition(*i, c, inner) {
            None => false,
            Some(arg) => arg.is_top(),
        },
        Ty::Apply(i, ts) => match definition(*i, c, inner) {
            None => false,
            Some(arg) => applied_becomes_top(arg, ts, c, inner),
        },
        Ty::Int | Ty::Char | Ty::Str | Ty::Bool | Ty::Chan(..) | Ty::Fields(_) | Ty::Rec(_) =>
            false,
    }
}

/// The same of a definition with arguments, of which a type takes none.
#[cycle(tops)]
#[tactic(auto, using(crate::proofs::BecomingTop::body_rules, pict_types::proofs::Rows::plain_apply))]
fn applied_becomes_top(arg: &Arg, ts: &[Ty], c: &Context, inner: &Binders) -> bool
    ensures { result ≡ is_top (apply_head (head_in (plain_arg arg.now)) (replace_types (meanings (around inner.now c.now)) (plain_types ts.now))) }
{
    match arg {
        Arg::Plain(_) => true,
        Arg::Op { params, body } => match body {
            Ty::Top => true,
            Ty::Var(i) => argument_becomes_top(*params, *i, ts, c, inner),
            Ty::Apply(i, _) => *i < *params,
            Ty::Int | Ty::Char | Ty::Str | Ty::Bool | Ty::Chan(..) | Ty::Fields(_) | Ty::Rec(_) =>
                false,
        },
    }
}

/// The same of variable `i` of the body of an operator with these arguments.
#[cycle(tops)]
#[tactic(auto, using(crate::proofs::BecomingTop::body_rules, pict_types::proofs::Rows::size_types_item))]
fn argument_becomes_top(params: u32, i: u32, ts: &[Ty], c: &Context, inner: &Binders) -> bool
    ensures { result ≡ is_top (applied params (Var i) (replace_types (meanings (around inner.now c.now)) (plain_types ts.now))) }
{
    if i >= params {
        return false;
    }
    let place = (params - 1 - i) as usize;
    if place >= ts.len() {
        return true;
    }
    becomes_top(&ts[place], c, inner)
}

/// The definition of which the variable is the place; nothing where it is a variable.
fn definition<'a>(i: u32, c: &'a Context, inner: &Binders) -> Option<&'a Arg>
    ensures none { IfNone result (IsNoDefinition (around inner.now c.now) i) }
    ensures some { IfSome result (λ a. IsWhatAt (around inner.now c.now) i (Definition (plain_arg a.now))) }
{
    if (i as usize) < inner.len() {
        return None;
    }
    match c.what(i as usize - inner.len()) {
        None => None,
        Some(What::Variable(_)) => None,
        Some(What::Definition(arg)) => Some(arg),
    }
}
