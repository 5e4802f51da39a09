// The queues of a site are lent to the store, and given back.
ghost use Rattle.std.specs.Prelude.{◌≡◌, ◌≢◌, ◌<◌, ◌↔◌, [], Some, length, map, slice_get, IsTrue};
ghost use Rattle.pict_core.specs.Term.{Process};
ghost use Rattle.pict_code.specs.Plain.{plain_node};
ghost use Rattle.pict_queue.specs.QueuesState.{QueuesState};
ghost use Rattle.pict_queue.specs.Contents.{contents};
ghost use Rattle.pict_desk.specs.Code.{core_in, IsCode};
ghost use Rattle.pict_turns.specs.Acting.{IsStore, HasActing};
ghost use Rattle.pict_turns.specs.Views.{view_with_turn};
ghost use Rattle.pict_turns.specs.Stepping.{GivesTurn};
ghost use Rattle.pict_network.specs.Network as plain;
ghost use Rattle.pict_sites.specs.Views.{heap_in, StandFor, AreSites};
ghost use Rattle.pict_sites.specs.Working.{StandWhile, AreWorking};

use crate::places::is_busy;
use crate::sites::Sites;
use pict_code::Node;
use pict_turns::{Store, Turn, return_turn, take_turn};
use std::mem::swap;

/// Whether somebody has the turn, or stands in queue 0.
#[inline(always)]
pub(crate) fn has_next(store: &Store) -> bool
    requires { (core : Process) × IsStore core store.now }
    ensures { (core : Process) → IsStore core store.now → IsTrue result ↔ ((view_with_turn core store.now).ready ≢ []) }
{
    match store.turn.get() {
        Turn::Nobody => is_busy(&store.queues),
        _ => true,
    }
}

/// Somebody has the turn afterwards: who has it, or else the first of queue 0, whose block is free then. Takes no memory.
#[inline(always)]
pub(crate) fn ensure_turn(store: &mut Store, code: &[Node])
    requires code { IsCode (map plain_node code.now) }
    requires store { IsStore (core_in code.now) store.old }
    requires ready { (view_with_turn (core_in code.now) store.old).ready ≢ [] }
    ensures given { GivesTurn (core_in code.now) store.old store.new }
    ensures levels { length store.new.desk.values.items ≡ length store.old.desk.values.items }
{
    match store.turn.get() {
        Turn::Nobody => take_turn(store, code),
        _ => {}
    }
}

impl Sites {
    /// Whether there is one site alone, with something ready, and no packet.
    pub(crate) fn is_alone(&self) -> bool
        requires { (core : Process) × AreSites core self.now }
        ensures one { IsTrue result → length self.now.queues.items ≡ 1 }
        ensures none { IsTrue result → length self.now.to.items ≡ 0 }
        ensures busy { IsTrue result → (q : QueuesState) → slice_get self.now.queues.items 0 ≡ Some q → contents q 0 ≢ [] }
    {
        if self.queues.len() != 1 {
            return false;
        }
        if self.to.len() != 0 {
            return false;
        }
        is_busy(&self.queues[0])
    }

    /// The queues of site s are lent, and the first of its ready processes has the turn. Takes no memory.
    #[inline(always)]
    pub(crate) fn lend(&mut self, code: &[Node], s: usize)
        requires code { IsCode (map plain_node code.now) }
        requires sites { AreSites (core_in code.now) self.old }
        requires there { s < length self.old.queues.items }
        requires busy { (q : QueuesState) → slice_get self.old.queues.items s ≡ Some q → contents q 0 ≢ [] }
        ensures working { AreWorking (core_in code.now) s self.new }
        ensures acting { HasActing (core_in code.now) self.new.store }
        ensures stands { (N : plain.Network) → StandFor (core_in code.now) self.old N → StandWhile (core_in code.now) s self.new N }
        ensures heap { heap_in self.new ≡ heap_in self.old }
        ensures homes { self.new.homes ≡ self.old.homes }
        ensures to { self.new.to ≡ self.old.to }
        ensures count { length self.new.queues.items ≡ length self.old.queues.items }
    {
        swap(&mut self.store.queues, &mut self.queues[s]);
        take_turn(&mut self.store, code);
    }

    /// Site s has its queues again, and who had the turn is the first of its ready processes. Takes no memory.
    #[inline(always)]
    pub(crate) fn settle(&mut self, code: &[Node], s: usize)
        requires code { IsCode (map plain_node code.now) }
        requires working { AreWorking (core_in code.now) s self.old }
        ensures sites { AreSites (core_in code.now) self.new }
        ensures stands { (N : plain.Network) → StandWhile (core_in code.now) s self.old N → StandFor (core_in code.now) self.new N }
        ensures heap { heap_in self.new ≡ heap_in self.old }
        ensures homes { self.new.homes ≡ self.old.homes }
    {
        return_turn(&mut self.store, code);
        swap(&mut self.store.queues, &mut self.queues[s]);
    }
}
