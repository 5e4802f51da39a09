// The network of a code, before its first event.
ghost use Rattle.std.specs.Prelude.{◌≡◌, ◌≤◌, ◌-◌, length, IfOk};
ghost use Rattle.pict_code.specs.Plain.{plain_code};
ghost use Rattle.pict_code.specs.ReadBack.{core_of};
ghost use Rattle.pict_desk.specs.Code.{IsCode};
ghost use Rattle.pict_network.specs.Network.{opening_network};
ghost use Rattle.pict_network.specs.Invariant.{IsNetwork};
ghost use Rattle.pict_sites.specs.Network.{IsNetworkStore, StandsForNetwork, channels_of};
ghost use Rattle.pict_sites.specs.Opening.{AreIdle, IsFirstOf};

use crate::network::Network;
use crate::sites::Sites;
use pict_code::Code;
use pict_desk::{Desk, Pending, level_count, make_constants};
use pict_heap::Heap;
use pict_machine::opening_queues;
use pict_queue::Queues;
use pict_turns::{Holder, Store};
use std::alloc::{AllocError, Global};

// Queue 0 alone, which is empty.
fn idle_queues(alloc: Global) -> Result<Queues, AllocError>
    ensures { IfOk result (λ queues. AreIdle queues) }
{
    let mut queues = Queues::new(alloc);
    queues.add_queue()?;
    Ok(queues)
}

// These queues, and idle ones behind them, of so many sites together.
fn all_queues(alloc: Global, first: Queues, sites: u32) -> Result<Vec<Queues>, AllocError>
    requires some { 1 ≤ sites }
    ensures count { IfOk result (λ queues. length queues.items ≡ sites) }
    ensures first { IfOk result (λ queues. IsFirstOf first queues.items) }
{
    let mut queues = Vec::with_capacity(alloc, sites as usize)?;
    queues.push(first)?;
    for n in 1..sites {
        let idle = idle_queues(alloc)?;
        queues.push(idle)?;
    }
    Ok(queues)
}

impl Network {
    /// The network that is to run the process of this code, which is closed, on so many sites, from 1 to 64. It stands for the
    /// opening network of the process: the process is ready at site 0, nothing else is ready, nothing is on its way, and no channel
    /// is made. The only error is want of memory. It takes time in the nodes of the code, of its patterns and of the operands of
    /// outputs, and in the sites.
    pub fn load(alloc: Global, code: Code, sites: u32) -> Result<Network, AllocError>
        requires code { IsCode (plain_code code) }
        requires some { 1 ≤ sites }
        requires few { sites ≤ 64 }
        ensures kept { IfOk result (λ n. IsNetworkStore n) }
        ensures stands { IfOk result (λ n. StandsForNetwork n (opening_network (sites - 1) (core_of (plain_code code)))) }
        ensures is { IsNetwork (opening_network (sites - 1) (core_of (plain_code code))) }
        ensures channels { IfOk result (λ n. channels_of n ≡ 0) }
    {
        let first = opening_queues(alloc)?;
        let queues = all_queues(alloc, first, sites)?;
        let post = idle_queues(alloc)?;
        let values = vec![in alloc; (0, 0); level_count(&code.nodes)]?;
        let mut desk = Desk {
            heap: Heap::new(alloc),
            pending: Pending {
                words: Vec::new(alloc),
                labelled: Vec::new(alloc),
            },
            values,
        };
        let constants = make_constants(alloc, &mut desk, &code.nodes)?;
        let turn = Holder::new();
        let store = Store {
            desk,
            queues: Queues::new(alloc),
            turn,
        };
        let sites = Sites {
            store,
            queues,
            post,
            to: Vec::new(alloc),
            homes: Vec::new(alloc),
        };
        Ok(Network {
            code,
            constants,
            sites,
        })
    }
}
