// The picker: a code, and its processes.
ghost use Rattle.std.specs.Prelude.{◌≡◌, ◌<◌, length, filter, slice_get, Some, IfOk};
ghost use Rattle.pict_core.specs.Configuration.{Configuration, IsConfiguration, opening};
ghost use Rattle.pict_core.specs.Places.{ready_entries, partners_at};
ghost use Rattle.pict_core.specs.Term.{Process};
ghost use Rattle.pict_code.specs.Plain.{plain_code};
ghost use Rattle.pict_code.specs.ReadBack.{core_of};
ghost use Rattle.pict_view.specs.Partners.{partners_in};
ghost use Rattle.pict_view.specs.View.{StandsFor, list_at};
ghost use Rattle.pict_desk.specs.Code.{IsCode};
ghost use Rattle.pict_picker.specs.Partners.{is_partner_of};
ghost use Rattle.pict_picker.specs.Picker.{IsPicker, view_of, heap_of, channels_of};

use crate::lists::Lists;
use crate::partners::{channel_of_waiting, count_partners};
use crate::waiting::Waiting;
use pict_code::Code;
use pict_desk::{Desk, Pending, level_count};
use pict_heap::Heap;
use pict_ranked::Ranked;
use std::alloc::{AllocError, Global};

/// A machine that takes choices by place: which ready process steps, and with which of its parked partners.
///
/// Contracts see it by its view: the ready processes in order, and the list of what is parked at each channel, the oldest
/// first. A configuration has stamps, the picker has none: a view stands for every configuration whose processes, by rising
/// stamps, are these lists.
#[derive(Drop)]
pub struct Picker {
    pub(crate) alloc: Global,
    pub(crate) code: Code,
    pub(crate) desk: Desk,
    pub(crate) lists: Lists,
}

impl Picker {
    /// The picker that is to run the process of this code, which is closed. It stands for the opening configuration of the
    /// process, and no channel is made. The only error is want of memory. It takes time in the nodes of the code and of its
    /// patterns, and memory for a value for each level that the code binds.
    pub fn load(alloc: Global, code: Code) -> Result<Picker, AllocError>
        requires code { IsCode (plain_code code) }
        ensures kept { IfOk result (λ p. IsPicker p) }
        ensures stands { IfOk result (λ p. StandsFor (view_of p) (opening (core_of (plain_code code)))) }
        ensures is { IsConfiguration (opening (core_of (plain_code code))) }
        ensures channels { IfOk result (λ p. channels_of p ≡ 0) }
    {
        let values = vec![in alloc; (0, 0); level_count(&code.nodes)]?;
        let mut ready = Ranked::new(alloc);
        ready.reserve(1)?;
        ready.push(Waiting::Node(0, Vec::new(alloc)));
        let desk = Desk {
            heap: Heap::new(alloc),
            pending: Pending {
                words: Vec::new(alloc),
                labelled: Vec::new(alloc),
            },
            values,
        };
        let lists = Lists {
            ready,
            channels: Vec::new(alloc),
        };
        Ok(Picker {
            alloc,
            code,
            desk,
            lists,
        })
    }

    /// How many processes are ready. Takes no memory.
    pub fn ready_count(&self) -> u64
        ensures view { result ≡ length (view_of self.now).ready }
        ensures ready { (C : Configuration) → StandsFor (view_of self.now) C → result ≡ length (ready_entries C) }
    {
        self.lists.ready.len() as u64
    }

    /// How many parked partners the `i`-th ready process has, from 0; one that stands at no channel has none. Takes no memory,
    /// and time in the levels of the process' frame.
    pub fn partners(&self, i: u64) -> u64
        requires kept { IsPicker self.now }
        requires ready { i < length (view_of self.now).ready }
        ensures view { (p : Process) → slice_get (view_of self.now).ready i ≡ Some p → result ≡ length (partners_in (view_of self.now).channels p) }
        ensures partners { (C : Configuration) → StandsFor (view_of self.now) C → result ≡ length (partners_at C i) }
    {
        match channel_of_waiting(&self.code.nodes, self.lists.ready.get(i as usize)) {
            Some((channel, sends)) => self.partners_at(channel, sends) as u64,
            None => 0,
        }
    }

    // How many wait at this channel that are partners of one that sends there, or of one that receives.
    fn partners_at(&self, channel: u32, sends: bool) -> usize
        requires { IsPicker self.now }
        ensures { result ≡ length (filter (is_partner_of sends) (list_at channel (view_of self.now).channels)) }
    {
        match self.lists.channels.get(channel as usize) {
            Some(list) => count_partners(list, sends),
            None => 0,
        }
    }

    /// The texts and the records that the words of steps stand for. Takes no memory.
    pub fn heap(&self) -> &Heap
        ensures { result.now ≡ heap_of self.now }
    {
        &self.desk.heap
    }
}
