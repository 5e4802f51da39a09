// What waits at a channel.
ghost use Rattle.std.specs.Prelude.{◌≡◌, ◌+◌};
ghost use Rattle.std.specs.List.{AllByRecursion};
ghost use Rattle.pict_core.specs.Term.{Process};
ghost use Rattle.pict_queue.specs.QueuesState.{IsQueue, CostsAtMost};
ghost use Rattle.pict_queue.specs.Contents.{contents, KeepsAllContents, KeepsHeld};
ghost use Rattle.pict_blocks.specs.Writing.{OnlyWorks};
ghost use Rattle.pict_turns.specs.Views.{CanWait};
ghost use Rattle.pict_meetings.specs.Waiting.{waits_first};

use crate::channels::queue_of;
use pict_queue::Queues;

/// What waits first at a channel.
#[derive(Clone, Copy)]
pub enum Waiting {
    /// Nothing.
    Nothing,
    /// An output of kept values.
    Output,
    /// The input of the node with this number.
    Input(usize),
}

/// What waits first at a channel. Changes no word and no queue, and takes no memory.
#[inline(always)]
pub fn first_waiting(queues: &mut Queues, channel: u32) -> Waiting
    requires queue { IsQueue queues.old (channel + 1) }
    requires waiting { (core : Process) × AllByRecursion (CanWait core) (contents queues.old (channel + 1)) }
    ensures first { result ≡ waits_first queues.old channel }
    ensures rest { OnlyWorks queues.old queues.new }
    ensures contents { KeepsAllContents queues.old queues.new }
    ensures kept { KeepsHeld queues.old queues.new }
    ensures cost { CostsAtMost 2 queues.old queues.new }
{
    match queues.peek(queue_of(channel), 1) {
        None => Waiting::Nothing,
        Some(0) => Waiting::Output,
        Some(number) => Waiting::Input(number as usize - 1),
    }
}
