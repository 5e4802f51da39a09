// A packet arrives.
ghost use Rattle.std.specs.Prelude.{◌≡◌, ◌<◌, ℕ, List, length, map, OnOk, OnErr};
ghost use Rattle.pict_code.specs.Plain.{plain_node};
ghost use Rattle.pict_queue.specs.Contents.{contents};
ghost use Rattle.pict_desk.specs.Code.{core_in, IsCode};
ghost use Rattle.pict_turns.specs.declared.turn.Turn.TheVariants.{Nobody};
ghost use Rattle.pict_network.specs.Network as plain;
ghost use Rattle.pict_network.specs.Events as events;
ghost use Rattle.pict_sites.specs.Passing.{HoldsTheSame, PassesOn, OnlyLooks};
ghost use Rattle.pict_sites.specs.Views.{heap_in, StandFor, IsSite, AreSites};

use crate::passing::pass;
use crate::sites::Sites;
use crate::turning::turn;
use pict_code::Node;
use pict_queue::Queues;
use pict_turns::{Store, return_turn, take_turn};
use std::alloc::AllocError;
use std::mem::swap;

// The j-th of the `count` blocks of queue 0 of the post becomes the last of queue 0 of these queues. An error, which is want of
// memory, changes nothing but free blocks, work and the values of levels. Takes time in the blocks of the post.
fn pass_on(
    store: &mut Store,
    code: &[Node],
    post: &mut Queues,
    queues: &mut Queues,
    j: u64,
    count: u64,
) -> Result<(), AllocError>
    requires code { IsCode (map plain_node code.now) }
    requires nobody { store.old.turn ≡ Nobody }
    requires post { IsSite (core_in code.now) store.old.desk post.old }
    requires site { IsSite (core_in code.now) store.old.desk queues.old }
    requires many { length (contents post.old 0) ≡ count }
    requires there { j < count }
    ensures looks { OnlyLooks store.old store.new }
    ensures passed { OnOk result ((front : List (List ℕ)) × (back : List (List ℕ)) × (words : List ℕ) × (length front ≡ j)
        × PassesOn post.old post.new queues.old queues.new front back words) }
    ensures refused { OnErr result (HoldsTheSame post.old post.new) }
    ensures same { OnErr result (HoldsTheSame queues.old queues.new) }
{
    turn(post, j);
    swap(&mut store.queues, post);
    take_turn(store, code);
    let passed = pass(store, code, queues);
    return_turn(store, code);
    swap(&mut store.queues, post);
    match passed {
        Ok(()) => {
            turn(post, count - 1 - j);
            Ok(())
        }
        Err(error) => {
            turn(post, count - j);
            Err(error)
        }
    }
}

impl Sites {
    /// The j-th packet, from 0, arrives: its process becomes the last of its destination. An error, which is want of memory, changes
    /// nothing but free blocks, work and the values of levels. Takes time in the packets.
    pub(crate) fn deliver(&mut self, code: &[Node], j: usize) -> Result<(), AllocError>
        requires code { IsCode (map plain_node code.now) }
        requires sites { AreSites (core_in code.now) self.old }
        requires there { j < length self.old.to.items }
        ensures sites { AreSites (core_in code.now) self.new }
        ensures moved { OnOk result ((N : plain.Network) → StandFor (core_in code.now) self.old N
            → (M : plain.Network) × (events.delivery_at N j ≡ events.Moved M) × StandFor (core_in code.now) self.new M) }
        ensures refused { OnErr result ((N : plain.Network) → StandFor (core_in code.now) self.old N → StandFor (core_in code.now) self.new N) }
        ensures heap { heap_in self.new ≡ heap_in self.old }
        ensures homes { self.new.homes ≡ self.old.homes }
    {
        let count = self.to.len() as u64;
        let to = self.to[j] as usize;
        pass_on(
            &mut self.store,
            code,
            &mut self.post,
            &mut self.queues[to],
            j as u64,
            count,
        )?;
        let _to = self.to.remove(j);
        Ok(())
    }
}
