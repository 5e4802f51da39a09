// Runs on several sites, whose events are chosen by a seed.
ghost use Rattle.std.specs.Prelude.{◌≡◌, ◌≤◌, ◌<◌, ◌+◌, ◌-◌, ◌^◌, IfOk, OnErr, Err};
ghost use Rattle.pict_outside.specs.Counts.{Rose};
ghost use Rattle.pict_core.specs.Closed.{IsClosed};
ghost use Rattle.pict_core.specs.Plain.{plain_core};
ghost use Rattle.pict_reduction.specs.Reached.{NoFreeRunIsWrong};
ghost use Rattle.pict_machine.specs.Events.{end_of};
ghost use Rattle.pict_network.specs.Network as plain;
ghost use Rattle.pict_network.specs.Network.{opening_network};
ghost use Rattle.pict_sites.specs.Network.{channels_of, StandsForNetwork, IsNetworkStore};
ghost use Rattle.pict_sites.specs.Runs.{RanOn, BrokeOffOn, IsRightFrom};
ghost use Rattle.pict_view.specs.Watching.{Saw, SawOrTore};
ghost use Rattle.pict_words.specs.Words.{IsSiteCount};
ghost use Rattle.pict_top.specs.Changes.{change_of, GainedFront, FailedWithin};
ghost use Rattle.pict_top.specs.Printed.{form_of, written_after, WrittenInPart, Finished, Somehow};
ghost use Rattle.pict_top.specs.Siting.{NetworkShows};

use crate::form::Form;
use crate::printer::Printer;
use pict_core::Core;
use pict_lower::lower;
use pict_machine::{End, RunError};
use pict_outside::Sink;
use pict_seed::Chooser;
use pict_sites::Network;
use pict_syntax::{FUEL_LIMIT, Names};
use std::alloc::{AllocError, Global};

/// Runs a process on so many sites, for up to `fuel` events, each the one that the seed chooses, and writes what its steps print. No
/// free run of it may be wrong. On an error a beginning of what the run prints was written; `Sink` comes only where the sink's count
/// of faults rose.
pub fn run_sites<O: Sink>(
    alloc: Global,
    names: &Names,
    core: &Core,
    sites: u32,
    seed: u64,
    fuel: u64,
    out: &mut O,
) -> Result<End, RunError>
    requires closed { IsClosed (plain_core core.now) }
    requires sites { IsSiteCount sites }
    requires fuel { fuel ≤ FUEL_LIMIT }
    requires right { NoFreeRunIsWrong (plain_core core.now) }
    ensures ran { IfOk result (λ end. Finished (NetworkShows (plain_core core.now) sites seed fuel) end
        (change_of O.taken O.faults out.old out.new)) }
    ensures sink { result ≡ Err RunError.Sink → Somehow (NetworkShows (plain_core core.now) sites seed fuel)
        (FailedWithin (change_of O.taken O.faults out.old out.new)) }
    ensures memory { result ≡ Err RunError.Memory → Somehow (NetworkShows (plain_core core.now) sites seed fuel)
        (GainedFront (change_of O.taken O.faults out.old out.new)) }
    ensures faults_stay { O.faults out.old ≤ O.faults out.new }
{
    let mut network = match load_network(alloc, core, sites) {
        Ok(network) => network,
        Err(AllocError) => return Err(RunError::Memory),
    };
    let mut chooser = Chooser::new(seed);
    run_network(alloc, names, &mut network, &mut chooser, fuel, out)
}

/// The network that is to run a closed process on so many sites. The only error is want of memory.
fn load_network(alloc: Global, core: &Core, sites: u32) -> Result<Network, AllocError>
    requires closed { IsClosed (plain_core core.now) }
    requires sites { IsSiteCount sites }
    ensures kept { IfOk result (λ network. IsNetworkStore network) }
    ensures stands { IfOk result (λ network. StandsForNetwork network (opening_network (sites - 1) (plain_core core.now))) }
    ensures channels { IfOk result (λ network. channels_of network ≡ 0) }
{
    let code = lower(alloc, core)?;
    Network::load(alloc, code, sites)
}

/// Runs a network, and writes what its steps print.
fn run_network<O: Sink>(
    alloc: Global,
    names: &Names,
    network: &mut Network,
    chooser: &mut Chooser,
    fuel: u64,
    out: &mut O,
) -> Result<End, RunError>
    requires kept { IsNetworkStore network.old }
    requires fuel { fuel ≤ FUEL_LIMIT }
    requires few { channels_of network.old + fuel < 2 ^ 32 }
    requires right { (N : plain.Network) × StandsForNetwork network.old N × IsRightFrom N chooser.old }
    ensures end { IfOk result (λ end. (N : plain.Network) → StandsForNetwork network.old N
        → RanOn (StandsForNetwork network.new) N chooser.old fuel (end_of end)
        (Saw (written_after (form_of Form.Printed names.now)) (O.taken out.old) (O.taken out.new))) }
    ensures broken { OnErr result ((N : plain.Network) → StandsForNetwork network.old N
        → BrokeOffOn (StandsForNetwork network.new) N chooser.old fuel
        (SawOrTore (written_after (form_of Form.Printed names.now)) (WrittenInPart (form_of Form.Printed names.now))
        (O.taken out.old) (O.taken out.new))) }
    ensures sink { result ≡ Err RunError.Sink → Rose (O.faults out.old) (O.faults out.new) }
    ensures faults_stay { O.faults out.old ≤ O.faults out.new }
{
    let mut printer = Printer {
        alloc,
        form: Form::Printed,
        names,
        out,
    };
    network.run(chooser, fuel, &mut printer)
}
