// The blocks of a queue in turn.
ghost use Rattle.std.specs.Prelude.{◌≡◌, ◌≤◌, length};
ghost use Rattle.pict_queue.specs.QueuesState.{IsQueue};
ghost use Rattle.pict_queue.specs.Contents.{contents, KeepsOtherContents};
ghost use Rattle.pict_sites.specs.Turning.{turned};

use pict_queue::{QueueId, Queues};

/// The first `n` blocks of queue 0 become its last ones, in their order. Takes no memory, and time in them.
pub(crate) fn turn(queues: &mut Queues, n: u64)
    requires queue { IsQueue queues.old 0 }
    requires there { n ≤ length (contents queues.old 0) }
    ensures turned { contents queues.new 0 ≡ turned n (contents queues.old 0) }
    ensures others { KeepsOtherContents queues.old queues.new 0 }
    ensures queues { length queues.new.queues ≡ length queues.old.queues }
{
    for i in 0..n {
        queues.move_front(QueueId(0), QueueId(0));
    }
}
