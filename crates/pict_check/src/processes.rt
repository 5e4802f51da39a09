// Processes.

ghost use Rattle.std.specs.Prelude.{◌≡◌, OnOk};
ghost use Rattle.pict_syntax.specs.PlainTrees.{abs_of, chan_of, proc_of, procs_on};
ghost use Rattle.pict_syntax.specs.Trees.{no_procs, of_chan};
ghost use Rattle.pict_rules.specs.Rules.{gives, nothing_, ok, process, processes, receives};
ghost use Rattle.pict_rules.specs.Typing.{rule};
ghost use Rattle.pict_rules.specs.Derivations.{Runs};
ghost use Rattle.pict_types.specs.Plain.{plain};
ghost use Rattle.pict_infer.specs.Answering.{IsAnswer, nothing};
ghost use Rattle.pict_infer.specs.Asking.{IsWellAsked};
ghost use Rattle.pict_infer.specs.Environments.{environment_of, IsAsBefore};

use crate::abstractions::abstraction_against;
use crate::channels::channel_gives;
use crate::declarations::declarations;
use crate::values::{gives_below, has};
use pict_infer::{Env, InferError};
use pict_lines::messages::{messages_received, messages_sent};
use pict_syntax::{Abs, Chan, Code, Proc, chan_span};
use pict_types::Ty;
use std::alloc::Global;

/// A process. As much is known after it as before. After an error `env` is to be dropped.
#[cycle(values)]
pub fn process(alloc: Global, env: &mut Env, p: &Proc) -> Result<(), InferError>
    requires right { IsWellAsked nothing_ (environment_of env.old) (process (proc_of p.now)) }
    ensures answer { IsAnswer (rule (environment_of env.old) (process (proc_of p.now))) nothing result }
    ensures same { OnOk result (IsAsBefore env.old env.new) }
{
    match p {
        Proc::Send(_, c, v) => {
            let t = channel_gives(alloc, env, c)?;
            let u = messages_sent(alloc, env, t, chan_span(c))?;
            has(alloc, env, v, &u)
        }
        Proc::Receive(_, c, a) => {
            let t = channel_gives(alloc, env, c)?;
            receives(alloc, env, a, c, t)
        }
        Proc::Serve(_, c, a) => {
            let t = channel_gives(alloc, env, c)?;
            receives(alloc, env, a, c, t)
        }
        Proc::If(_, test, yes, no) => {
            gives_below(alloc, env, test, &Ty::Bool, Code::Y12)?;
            process(alloc, env, yes)?;
            process(alloc, env, no)
        }
        Proc::Inert(_) => Ok(()),
        Proc::Group(_, ds, ps) => {
            let outer = env.place();
            declarations(alloc, env, ds)?;
            processes(alloc, env, ps)?;
            env.cut(outer);
            Ok(())
        }
    }
}

/// An abstraction that receives from a channel, which gave this type. Y1 and Y3 at the channel.
#[cycle(values)]
fn receives(alloc: Global, env: &mut Env, a: &Abs, c: &Chan, t: Ty) -> Result<(), InferError>
    requires right { IsWellAsked nothing_ (environment_of env.old) (receives (chan_of c.now) (abs_of a.now)) }
    requires head { Runs (rule (environment_of env.old) (gives (of_chan (chan_of c.now)))) (ok (plain t)) }
    ensures answer { IsAnswer (rule (environment_of env.old) (receives (chan_of c.now) (abs_of a.now))) nothing result }
    ensures same { OnOk result (IsAsBefore env.old env.new) }
{
    let u = messages_received(alloc, env, t, chan_span(c))?;
    abstraction_against(alloc, env, a, &u)
}

/// Processes, in order.
#[cycle(values)]
fn processes(alloc: Global, env: &mut Env, ps: &[Proc]) -> Result<(), InferError>
    requires right { IsWellAsked nothing_ (environment_of env.old) (processes (procs_on no_procs ps.now)) }
    ensures answer { IsAnswer (rule (environment_of env.old) (processes (procs_on no_procs ps.now))) nothing result }
    ensures same { OnOk result (IsAsBefore env.old env.new) }
{
    for p in ps {
        process(alloc, env, p)?;
    }
    Ok(())
}
