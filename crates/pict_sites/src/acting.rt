// The act of a site.
ghost use Rattle.std.specs.Prelude.{◌≡◌, ◌≢◌, ◌≤◌, ◌<◌, ◌+◌, ◌^◌, ◌⊎◌, ℕ, [], None, Some, length, map, slice_get, OnOk, OnErr, IfOk};
ghost use Rattle.pict_code.specs.Instruction as op;
ghost use Rattle.pict_code.specs.Plain.{plain_node};
ghost use Rattle.pict_heap.specs.HeapState.{KeepsWords};
ghost use Rattle.pict_queue.specs.QueuesState.{QueuesState};
ghost use Rattle.pict_queue.specs.Contents.{contents};
ghost use Rattle.pict_desk.specs.Code.{core_in, IsCode};
ghost use Rattle.pict_desk.specs.Constants.{AreConstants};
ghost use Rattle.pict_turns.specs.Acting.{HasActing, ActsBy};
ghost use Rattle.pict_network.specs.SiteView.{IsNoFork, IsNoOpening};
ghost use Rattle.pict_network.specs.Events as events;
ghost use Rattle.pict_sites.specs.Happening.{Happens, HasWords, IsRightFor};
ghost use Rattle.pict_sites.specs.Passing.{HoldsTheSame, Sends};
ghost use Rattle.pict_sites.specs.Standing.{channel_at, other_home, home_in};
ghost use Rattle.pict_sites.specs.Views.{heap_in, count_channels, StandFor, IsSite, AreSites};
ghost use Rattle.pict_sites.specs.Working.{acting_process, StandWhile, AreWorking};

use crate::did::step;
use crate::happened::Happened;
use crate::opening::{add_queues, reserve_queues};
use crate::passing::{pass, split};
use crate::sites::Sites;
use crate::standing::{Form, form_of_turn, home_elsewhere};
use pict_code::Node;
use pict_heap::Word;
use pict_picker::Did;
use std::alloc::AllocError;

impl Sites {
    /// The first process of site s acts. An error, which is want of memory, changes nothing but room, free blocks, work and the
    /// values of levels.
    pub(crate) fn act_site(
        &mut self,
        code: &[Node],
        constants: &[Option<Word>],
        s: usize,
    ) -> Result<Happened, AllocError>
        requires code { IsCode (map plain_node code.now) }
        requires constants { AreConstants (heap_in self.old) (map plain_node code.now) constants.now }
        requires sites { AreSites (core_in code.now) self.old }
        requires there { s < length self.old.queues.items }
        requires busy { (q : QueuesState) → slice_get self.old.queues.items s ≡ Some q → contents q 0 ≢ [] }
        requires few { count_channels self.old + 1 < 2 ^ 32 }
        requires right { IsRightFor (StandFor (core_in code.now) self.old) (λ N. events.act_at N s) }
        ensures sites { AreSites (core_in code.now) self.new }
        ensures happens { Happens (heap_in self.new) (StandFor (core_in code.now) self.old) (StandFor (core_in code.now) self.new)
            (λ N. events.act_at N s) result }
        ensures words { IfOk result (HasWords (heap_in self.new)) }
        ensures keeps { KeepsWords (heap_in self.old) (heap_in self.new) }
        ensures channels { count_channels self.new ≤ count_channels self.old + 1 }
    {
        self.lend(code, s);
        let happened = self.act_of_turn(code, constants, s);
        self.settle(code, s);
        happened
    }

    // Who has the turn, of site s, moves or acts.
    fn act_of_turn(
        &mut self,
        code: &[Node],
        constants: &[Option<Word>],
        s: usize,
    ) -> Result<Happened, AllocError>
        requires code { IsCode (map plain_node code.now) }
        requires constants { AreConstants (heap_in self.old) (map plain_node code.now) constants.now }
        requires working { AreWorking (core_in code.now) s self.old }
        requires acting { HasActing (core_in code.now) self.old.store }
        requires few { count_channels self.old + 1 < 2 ^ 32 }
        requires right { IsRightFor (StandWhile (core_in code.now) s self.old) (λ N. events.act_at N s) }
        ensures working { AreWorking (core_in code.now) s self.new }
        ensures happens { Happens (heap_in self.new) (StandWhile (core_in code.now) s self.old) (StandWhile (core_in code.now) s self.new)
            (λ N. events.act_at N s) result }
        ensures words { IfOk result (HasWords (heap_in self.new)) }
        ensures keeps { KeepsWords (heap_in self.old) (heap_in self.new) }
        ensures channels { count_channels self.new ≤ count_channels self.old + 1 }
    {
        match home_elsewhere(code, &self.store, &self.homes, s) {
            Some(home) => {
                self.send_turn(code, home)?;
                Ok(Happened::Moved)
            }
            None => self.act_here(code, constants, s),
        }
    }

    // Who has the turn becomes a packet to this site. An error, which is want of memory, changes nothing but free blocks.
    fn send_turn(&mut self, code: &[Node], to: u32) -> Result<(), AllocError>
        requires code { IsCode (map plain_node code.now) }
        requires acting { HasActing (core_in code.now) self.old.store }
        requires post { IsSite (core_in code.now) self.old.store.desk self.old.post }
        ensures sends { OnOk result (Sends (core_in code.now) self.old self.new to) }
        ensures refused { OnErr result (HoldsTheSame self.old.post self.new.post) }
        ensures to { OnErr result (self.new.to.items ≡ self.old.to.items) }
        ensures rest { OnErr result (self.new ≡ record self.old { post = self.new.post; to = self.new.to }) }
    {
        self.to.push(to)?;
        match pass(&mut self.store, code, &mut self.post) {
            Ok(()) => Ok(()),
            Err(error) => {
                let _to = self.to.pop();
                Err(error)
            }
        }
    }

    /// Who has the turn acts at site s, where it stands at no channel of another site. An error, which is want of memory, changes
    /// nothing but room, free blocks and work. At the only site nothing becomes a packet.
    pub(crate) fn act_here(
        &mut self,
        code: &[Node],
        constants: &[Option<Word>],
        s: usize,
    ) -> Result<Happened, AllocError>
        requires code { IsCode (map plain_node code.now) }
        requires constants { AreConstants (heap_in self.old) (map plain_node code.now) constants.now }
        requires working { AreWorking (core_in code.now) s self.old }
        requires acting { HasActing (core_in code.now) self.old.store }
        requires few { count_channels self.old + 1 < 2 ^ 32 }
        requires right { IsRightFor (StandWhile (core_in code.now) s self.old) (λ N. events.act_at N s) }
        requires here { other_home s (home_in self.old.homes.items (channel_at (acting_process (core_in code.now) self.old.store))) ≡ None }
        ensures working { AreWorking (core_in code.now) s self.new }
        ensures happens { Happens (heap_in self.new) (StandWhile (core_in code.now) s self.old) (StandWhile (core_in code.now) s self.new)
            (λ N. events.act_at N s) result }
        ensures words { IfOk result (HasWords (heap_in self.new)) }
        ensures keeps { KeepsWords (heap_in self.old) (heap_in self.new) }
        ensures channels { count_channels self.new ≤ count_channels self.old + 1 }
        ensures count { length self.new.queues.items ≡ length self.old.queues.items }
        ensures to { length self.old.queues.items ≡ 1 → self.new.to.items ≡ self.old.to.items }
    {
        match form_of_turn(code, &self.store) {
            Form::Fork(left, right) => {
                if self.queues.len() == 1 {
                    self.step_here(code, constants, s)
                } else {
                    self.fork(code, left, right, s)
                }
            }
            Form::Opening => self.open(code, constants, s),
            Form::Other => self.step_here(code, constants, s),
        }
    }

    // The step of who has the turn at site s, where it stands at no channel of another site, opens none, and forks nothing, or at the
    // only site.
    fn step_here(
        &mut self,
        code: &[Node],
        constants: &[Option<Word>],
        s: usize,
    ) -> Result<Happened, AllocError>
        requires code { IsCode (map plain_node code.now) }
        requires constants { AreConstants (heap_in self.old) (map plain_node code.now) constants.now }
        requires working { AreWorking (core_in code.now) s self.old }
        requires acting { HasActing (core_in code.now) self.old.store }
        requires few { count_channels self.old + 1 < 2 ^ 32 }
        requires right { IsRightFor (StandWhile (core_in code.now) s self.old) (λ N. events.act_at N s) }
        requires here { other_home s (home_in self.old.homes.items (channel_at (acting_process (core_in code.now) self.old.store))) ≡ None }
        requires fork { IsNoFork (acting_process (core_in code.now) self.old.store) ⊎ (length self.old.queues.items ≡ 1) }
        requires opening { IsNoOpening (acting_process (core_in code.now) self.old.store) }
        ensures working { AreWorking (core_in code.now) s self.new }
        ensures happens { Happens (heap_in self.new) (StandWhile (core_in code.now) s self.old) (StandWhile (core_in code.now) s self.new)
            (λ N. events.act_at N s) result }
        ensures words { IfOk result (HasWords (heap_in self.new)) }
        ensures keeps { KeepsWords (heap_in self.old) (heap_in self.new) }
        ensures channels { self.new.homes ≡ self.old.homes }
        ensures queues { self.new.queues ≡ self.old.queues }
        ensures to { self.new.to ≡ self.old.to }
    {
        let did = step(code, constants, &mut self.store)?;
        Ok(Happened::Stepped(did))
    }

    // The step of a restriction, which has the turn at site s: each site gets a queue for the new channel, whose home is s. An error,
    // which is want of memory, changes nothing but room, free blocks and work.
    fn open(
        &mut self,
        code: &[Node],
        constants: &[Option<Word>],
        s: usize,
    ) -> Result<Happened, AllocError>
        requires code { IsCode (map plain_node code.now) }
        requires constants { AreConstants (heap_in self.old) (map plain_node code.now) constants.now }
        requires working { AreWorking (core_in code.now) s self.old }
        requires acts { (level : ℕ) × (part : ℕ) × ActsBy (core_in code.now) self.old.store (op.New level part) }
        requires few { count_channels self.old + 1 < 2 ^ 32 }
        requires right { IsRightFor (StandWhile (core_in code.now) s self.old) (λ N. events.act_at N s) }
        ensures working { AreWorking (core_in code.now) s self.new }
        ensures happens { Happens (heap_in self.new) (StandWhile (core_in code.now) s self.old) (StandWhile (core_in code.now) s self.new)
            (λ N. events.act_at N s) result }
        ensures words { IfOk result (HasWords (heap_in self.new)) }
        ensures keeps { KeepsWords (heap_in self.old) (heap_in self.new) }
        ensures channels { count_channels self.new ≤ count_channels self.old + 1 }
        ensures count { length self.new.queues.items ≡ length self.old.queues.items }
        ensures to { self.new.to ≡ self.old.to }
    {
        reserve_queues(&mut self.queues)?;
        self.homes.push(s as u32)?;
        match step(code, constants, &mut self.store) {
            Ok(did) => {
                add_queues(&mut self.queues);
                Ok(Happened::Stepped(did))
            }
            Err(error) => {
                let _home = self.homes.pop();
                Err(error)
            }
        }
    }

    // The step of a parallel composition of the nodes with these numbers, which has the turn at site s, one of several: its left part
    // is first there, and its right part a packet to the next site. An error, which is want of memory, changes nothing but room and
    // free blocks.
    fn fork(
        &mut self,
        code: &[Node],
        left: u32,
        right: u32,
        s: usize,
    ) -> Result<Happened, AllocError>
        requires code { IsCode (map plain_node code.now) }
        requires working { AreWorking (core_in code.now) s self.old }
        requires acts { ActsBy (core_in code.now) self.old.store (op.Par left right) }
        requires several { length self.old.queues.items ≢ 1 }
        ensures working { AreWorking (core_in code.now) s self.new }
        ensures happens { Happens (heap_in self.new) (StandWhile (core_in code.now) s self.old) (StandWhile (core_in code.now) s self.new)
            (λ N. events.act_at N s) result }
        ensures words { IfOk result (HasWords (heap_in self.new)) }
        ensures keeps { KeepsWords (heap_in self.old) (heap_in self.new) }
        ensures channels { self.new.homes ≡ self.old.homes }
        ensures queues { self.new.queues ≡ self.old.queues }
    {
        let to = (s + 1) % self.queues.len();
        self.to.push(to as u32)?;
        match split(&mut self.store, code, left, right, &mut self.post) {
            Ok(()) => Ok(Happened::Stepped(Did::Quiet)),
            Err(error) => {
                let _to = self.to.pop();
                Err(error)
            }
        }
    }
}
