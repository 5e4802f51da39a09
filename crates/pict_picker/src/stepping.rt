// One step of the picker.
ghost use Rattle.std.specs.Prelude.{◌≡◌, ◌≤◌, ◌<◌, ◌+◌, ◌^◌, IfOk, Ok, OnErr};
ghost use Rattle.pict_core.specs.Configuration.{Configuration, IsConfiguration};
ghost use Rattle.pict_heap.specs.HeapState.{KeepsWords};
ghost use Rattle.pict_view.specs.View.{StandsFor};
ghost use Rattle.pict_picker.specs.Events.{label_of, trap_of, IsDidOf};
ghost use Rattle.pict_picker.specs.Picker.{IsPicker, IsUnchanged, view_of, heap_of, channels_of};
ghost use Rattle.pict_picker.specs.Stepping.{place, IsRightAt, IsStepAt};

use crate::acting::act;
use crate::did::Did;
use crate::partners::own_channel;
use crate::picker::Picker;
use crate::placing::{place_deed, reserve};
use pict_syntax::Span;
use std::alloc::AllocError;

impl Picker {
    /// One step: that of the `i`-th ready process, with the `j`-th of its parked partners, each from 0; where it has no partner
    /// `j` is 0.
    ///
    /// The answer is the label of this step, for each configuration that the picker stands for, by words of the heap, and the
    /// picker stands for the configuration after it. `Trapped` comes exactly where the step divides by zero. The only error is
    /// want of memory, also where more than 2 to the power 30 would be ready, or wait at one channel, for which a list may find
    /// no slots. After a trap or an error nothing has changed but room, and the values of levels, which count for nothing between
    /// two calls, so the step can be tried again, or another one.
    ///
    /// The channels and a new one have to be fewer than 2 to the power 32: a picker begins with none, and a step makes one at most.
    ///
    /// There has to be such a place, and the step may not be wrong: some configuration that the picker stands for has the
    /// place, and takes the step rightly. A wrong step is one that sends to or receives from what is no channel, tests what is no
    /// Bool, gives a primitive what it doesn't take, or meets a value that doesn't fit a pattern.
    ///
    /// It takes time in the acting instruction and its texts, in the frames of the nodes that act and that are made, and, on
    /// average over the steps, in the logarithms of the numbers of ready processes and of those at its channel: a step for which
    /// a list has to make room takes time in the whole list. It takes memory for the frames that it makes, which are one or, for a
    /// parallel composition, two; for the words of its message, or of what a primitive is given and answers, which stay in the
    /// heap; and for a place in a list.
    pub fn step_choice(&mut self, i: u64, j: u64) -> Result<Did, AllocError>
        requires kept { IsPicker self.old }
        requires few { channels_of self.old + 1 < 2 ^ 32 }
        requires right { IsRightAt (view_of self.old) i j }
        ensures kept { IsPicker self.new }
        ensures ok { IfOk result (λ did. (C : Configuration) → IsConfiguration C → StandsFor (view_of self.old) C
            → IsStepAt C (place i j) (label_of (heap_of self.new) did) (trap_of did) (view_of self.new)) }
        ensures event { IfOk result (IsDidOf (heap_of self.new)) }
        ensures trapped { (at : Span) → result ≡ Ok (Did.Trapped at) → IsUnchanged self.old self.new }
        ensures refused { OnErr result (IsUnchanged self.old self.new) }
        ensures keeps { KeepsWords (heap_of self.old) (heap_of self.new) }
        ensures channels { channels_of self.new ≤ channels_of self.old + 1 }
    {
        let channel = own_channel(&self.code.nodes, self.lists.ready.get(i as usize));
        reserve(&mut self.lists, channel)?;
        let deed = act(
            self.alloc,
            &self.code.nodes,
            &mut self.desk,
            &self.lists,
            i as usize,
            j as usize,
        )?;
        Ok(place_deed(self.alloc, &mut self.lists, i as usize, j as usize, deed))
    }
}
