// The machine: a code, and a store of its processes.
ghost use Rattle.std.specs.Prelude.{◌≡◌, ◌≢◌, ◌↔◌, [], IfOk, IsTrue};
ghost use Rattle.pict_core.specs.Configuration.{Configuration, IsConfiguration, opening};
ghost use Rattle.pict_core.specs.Step.{next, Finished};
ghost use Rattle.pict_code.specs.Plain.{plain_code};
ghost use Rattle.pict_code.specs.ReadBack.{core_of};
ghost use Rattle.pict_queue.specs.QueuesState.{IsQueue};
ghost use Rattle.pict_view.specs.View.{StandsFor};
ghost use Rattle.pict_desk.specs.Code.{IsCode};
ghost use Rattle.pict_machine.specs.Machine.{IsMachine, core_in, view_of, heap_of, queues_of, channels_of};
ghost use Rattle.pict_machine.specs.Opening.{AreOpening};

use pict_blocks::spawn;
use pict_code::Code;
use pict_desk::{Desk, Pending, level_count, make_constants};
use pict_heap::{Heap, Word};
use pict_queue::{QueueId, Queues};
use pict_turns::{Holder, Store};
use std::alloc::{AllocError, Global};

/// A machine that runs the code of a core process.
///
/// Contracts see it by its view: the ready processes in order, and the list of what is parked at each channel, the oldest
/// first. A configuration has stamps, the machine has none: a view stands for every configuration whose processes, by rising
/// stamps, are these lists. Each process is a block of words: the number of its node, and the values of its free variables.
/// The words of operands without variables are made once.
#[derive(Drop)]
pub struct Machine {
    pub(crate) code: Code,
    // One place for each node: the word of an output's message that is a text or a record without variables.
    pub(crate) constants: Vec<Option<Word>>,
    pub(crate) store: Store,
}

/// Queue 0 alone, with a block of node 0 and no value: the queues of a machine before its first step. The only error is want of
/// memory.
pub fn opening_queues(alloc: Global) -> Result<Queues, AllocError>
    ensures { IfOk result (λ queues. AreOpening queues) }
{
    let mut queues = Queues::new(alloc);
    queues.add_queue()?;
    queues.reserve(2, 1)?;
    spawn(&mut queues, QueueId(0), 0, &[], &[]);
    Ok(queues)
}

impl Machine {
    /// The machine that is to run the process of this code, which is closed. It stands for the opening configuration of the
    /// process, and no channel is made. The words of those messages of outputs that are texts or records without variables are
    /// made here, once. The only error is want of memory. It takes time in the nodes of the code, of its patterns and of the
    /// operands of outputs, and memory for one block, for a place for each node, for those words and for a value for each level
    /// that the code binds.
    pub fn load(alloc: Global, code: Code) -> Result<Machine, AllocError>
        requires code { IsCode (plain_code code) }
        ensures kept { IfOk result (λ m. IsMachine m) }
        ensures stands { IfOk result (λ m. StandsFor (view_of m) (opening (core_of (plain_code code)))) }
        ensures is { IsConfiguration (opening (core_of (plain_code code))) }
        ensures channels { IfOk result (λ m. channels_of m ≡ 0) }
        ensures code { IfOk result (λ m. core_in m ≡ core_of (plain_code code)) }
    {
        let queues = opening_queues(alloc)?;
        let values = vec![in alloc; (0, 0); level_count(&code.nodes)]?;
        let mut desk = Desk {
            heap: Heap::new(alloc),
            pending: Pending {
                words: Vec::new(alloc),
                labelled: Vec::new(alloc),
            },
            values,
        };
        let constants = make_constants(alloc, &mut desk, &code.nodes)?;
        let turn = Holder::new();
        let store = Store { desk, queues, turn };
        Ok(Machine {
            code,
            constants,
            store,
        })
    }

    /// Whether a process is ready: whether the configuration isn't finished. Takes no memory.
    pub fn ready(&self) -> bool
        requires kept { IsMachine self.now }
        ensures some { IsTrue result ↔ ((view_of self.now).ready ≢ []) }
        ensures unfinished { (C : Configuration) → IsConfiguration C → StandsFor (view_of self.now) C → IsTrue result ↔ (next C ≢ Finished) }
    {
        self.is_ready()
    }

    // Whether queue 0 has a block.
    #[inline(always)]
    pub(crate) fn is_ready(&self) -> bool
        requires { IsQueue (queues_of self.now) 0 }
        ensures { IsTrue result ↔ ((view_of self.now).ready ≢ []) }
    {
        self.store.queues.length(QueueId(0)) > 0
    }

    /// The texts and the records that the words of events stand for. Takes no memory.
    pub fn heap(&self) -> &Heap
        ensures { result.now ≡ heap_of self.now }
    {
        &self.store.desk.heap
    }

    /// The ready processes in queue 0, and what is parked at each channel in the queue after its number, as blocks. Takes no
    /// memory.
    pub fn queues(&self) -> &Queues
        ensures { result.now ≡ queues_of self.now }
    {
        &self.store.queues
    }
}
