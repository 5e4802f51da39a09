// Types that are formed of those of parts.

ghost use Rattle.std.specs.Prelude.{◌≡◌, IfNone, IfSome};
ghost use Rattle.pict_types.specs.Plain.{plain};
ghost use Rattle.pict_types.specs.Types.{Chan, Respond};
ghost use Rattle.pict_rules.specs.Regular.{IsTypeIn};
ghost use Rattle.pict_infer.specs.Answering.{IsAnswer};
ghost use Rattle.pict_infer.specs.Environments.{environment_of};
ghost use Rattle.pict_lines.specs.Counts.{sent};
ghost use Rattle.pict_lines.specs.Lines.{either_type, formed};

use crate::steps::within_limits;
use pict_infer::{Env, InferError, Told};
use pict_sub::is_subtype;
use pict_syntax::{Code, Span};
use pict_types::{Cap, Ty};
use std::alloc::Global;
use std::rc::Rc;

/// The greater of the types of two branches. Y11 at the place where none is a subtype of the other.
pub fn either(alloc: Global, env: &Env, s: Ty, t: Ty, span: Span) -> Result<Ty, InferError>
    requires s { IsTypeIn (environment_of env.now) (plain s) }
    requires t { IsTypeIn (environment_of env.now) (plain t) }
    ensures { IsAnswer (either_type (environment_of env.now) (plain s) (plain t) span) plain result }
{
    if is_subtype(alloc, env.context(), &s, &t)? {
        return Ok(t);
    }
    if is_subtype(alloc, env.context(), &t, &s)? {
        return Ok(s);
    }
    Err(InferError::Named(Code::Y11, span, Told::Nothing))
}

/// The type. K4 at the place where it passes a limit. Takes no memory.
pub fn limited(env: &Env, t: Ty, span: Span) -> Result<Ty, InferError>
    ensures { IsAnswer (formed (environment_of env.now) (plain t) span) plain result }
{
    match within_limits(env, &t, span) {
        Ok(()) => Ok(t),
        Err(e) => Err(e),
    }
}

/// `/R`. K4 at the place where it passes a limit.
pub fn responder(alloc: Global, env: &Env, r: Ty, span: Span) -> Result<Ty, InferError>
    ensures { IsAnswer (formed (environment_of env.now) (Chan Respond (plain r)) span) plain result }
{
    let t = Ty::Chan(Cap::Respond, Rc::new(alloc, r)?);
    limited(env, t, span)
}

/// The messages of `/R` or `!R`; nothing where the type is none of these. Takes no memory.
pub fn as_sent(t: &Ty) -> Option<&Ty>
    ensures none { IfNone result (sent (plain t.now) ≡ None) }
    ensures some { IfSome result (λ r. sent (plain t.now) ≡ Some (plain r.now)) }
{
    match t {
        Ty::Chan(Cap::Respond | Cap::Write, r) => Some(r),
        _ => None,
    }
}
