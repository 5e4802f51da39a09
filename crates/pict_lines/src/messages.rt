// What channels carry.

ghost use Rattle.std.specs.Prelude.{◌≡◌, IfNone, IfSome};
ghost use Rattle.pict_syntax.specs.declared.code.Code.TheVariants.{Y2, Y3};
ghost use Rattle.pict_types.specs.Plain.{plain, plain_cap};
ghost use Rattle.pict_types.specs.Types.{Chan};
ghost use Rattle.pict_sub.specs.Exposing.{exposure};
ghost use Rattle.pict_rules.specs.Clauses.{may_receive, may_send};
ghost use Rattle.pict_rules.specs.Environments.{context_of};
ghost use Rattle.pict_infer.specs.Answering.{IsAnswer};
ghost use Rattle.pict_infer.specs.Environments.{environment_of};
ghost use Rattle.pict_lines.specs.Declaring.{IsNoChannel};
ghost use Rattle.pict_lines.specs.Lines.{channel_messages};

use crate::steps::exposed;
use pict_infer::{Env, InferError, Told};
use pict_syntax::{Code, Span};
use pict_types::{Cap, Ty};
use std::alloc::Global;

/// The capability of a channel type, and its messages; nothing where the type is none of a channel. Takes no memory.
fn channel(t: &Ty) -> Option<(Cap, &Ty)>
    ensures none { IfNone result (IsNoChannel (plain t.now)) }
    ensures some { IfSome result (λ c. plain t.now ≡ Chan (plain_cap c.0) (plain c.1.now)) }
{
    match t {
        Ty::Chan(cap, u) => Some((*cap, u)),
        _ => None,
    }
}

/// Whether a channel with this capability may be sent on. Takes no memory.
fn may_send(cap: Cap) -> bool
    ensures { result ≡ may_send (plain_cap cap) }
{
    match cap {
        Cap::Both => true,
        Cap::Read => false,
        Cap::Write => true,
        Cap::Respond => true,
    }
}

/// Whether a channel with this capability may be received from. Takes no memory.
fn may_receive(cap: Cap) -> bool
    ensures { result ≡ may_receive (plain_cap cap) }
{
    match cap {
        Cap::Both => true,
        Cap::Read => true,
        Cap::Write => false,
        Cap::Respond => false,
    }
}

/// What may be sent on a channel that gave this type, with the bounds of variables followed. Y1 and Y2 at the channel.
pub fn messages_sent(alloc: Global, env: &Env, t: Ty, at: Span) -> Result<Ty, InferError>
    ensures { IsAnswer (channel_messages may_send Y2 at (exposure (context_of (environment_of env.now)) (plain t))) plain result }
{
    let exposed = exposed(alloc, env, t)?;
    match channel(&exposed) {
        None => Err(InferError::Named(Code::Y1, at, Told::Nothing)),
        Some((cap, u)) => {
            if may_send(cap) {
                return Ok(u.copy(alloc)?);
            }
            Err(InferError::Named(Code::Y2, at, Told::Nothing))
        }
    }
}

/// What may be received on a channel that gave this type, with the bounds of variables followed. Y1 and Y3 at the
/// channel.
pub fn messages_received(alloc: Global, env: &Env, t: Ty, at: Span) -> Result<Ty, InferError>
    ensures { IsAnswer (channel_messages may_receive Y3 at (exposure (context_of (environment_of env.now)) (plain t))) plain result }
{
    let exposed = exposed(alloc, env, t)?;
    match channel(&exposed) {
        None => Err(InferError::Named(Code::Y1, at, Told::Nothing)),
        Some((cap, u)) => {
            if may_receive(cap) {
                return Ok(u.copy(alloc)?);
            }
            Err(InferError::Named(Code::Y3, at, Told::Nothing))
        }
    }
}
