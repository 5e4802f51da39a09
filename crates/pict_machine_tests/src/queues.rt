// The worked row of the queues, and a long queue.
ghost use Rattle.std.specs.Prelude.{◌≡◌, ◌+◌, ◌<◌, ◌≤◌, length};
ghost use Rattle.pict_region.specs.RegionState.{spare};
ghost use Rattle.pict_queue.specs.QueuesState.{IsQueue, queue_blocks};

use pict_queue::{QueueId, Queues};
use std::alloc::{AllocError, Global};

// Takes `n` blocks of two words and pushes each to the back of a queue.
fn build(queues: &mut Queues, q: QueueId, n: u64)
    requires queue { IsQueue queues.old q.0 }
    requires spare { n ≤ spare queues.old.region 2 }
    ensures queue { IsQueue queues.new q.0 }
    ensures longer { length (queue_blocks queues.new q.0) ≡ length (queue_blocks queues.old q.0) + n }
{
    for _ in 0..n {
        let block = queues.take(2);
        queues.push_back(q, block);
    }
}

// Pops each block of a queue and gives it back, and answers how many there were.
fn drain(queues: &mut Queues, q: QueueId) -> u64
    requires queue { IsQueue queues.old q.0 }
    ensures count { result ≡ length (queue_blocks queues.old q.0) }
    ensures empty { length (queue_blocks queues.new q.0) ≡ 0 }
    ensures queue { IsQueue queues.new q.0 }
{
    let length = queues.length(q);
    for _ in 0..length {
        if let Some(block) = queues.pop_front(q) {
            queues.give(block);
        }
    }
    length - queues.length(q)
}

fn are_a_million_drained(alloc: Global) -> Result<bool, AllocError> {
    let mut queues = Queues::new(alloc);
    let queue = queues.add_queue()?;
    queues.reserve(2, 1_000_000)?;
    build(&mut queues, queue, 1_000_000);
    Ok(queues.length(queue) == 1_000_000 && drain(&mut queues, queue) == 1_000_000)
}

fn are_moved(alloc: Global) -> Result<bool, AllocError> {
    let mut queues = Queues::new(alloc);
    let first = queues.add_queue()?;
    let second = queues.add_queue()?;
    queues.reserve(2, 2)?;
    let a = queues.take(2);
    queues.set(&a, 1, 7);
    queues.push_back(first, a);
    let b = queues.take(2);
    queues.set(&b, 1, 8);
    queues.push_back(first, b);
    queues.move_front(first, second);
    let is_moved = (queues.length(first) == 1) & (queues.peek(second, 1) == Some(7));
    let is_drained = (drain(&mut queues, second) == 1) & (queues.peek(second, 1) == None);
    queues.reserve_queues(1)?;
    Ok(is_moved && is_drained && queues.add_queue()?.0 == 2)
}

// Values are read in place, and a block that is moved to the back of its own queue is no work.
fn are_read_in_place(alloc: Global) -> Result<bool, AllocError> {
    let mut queues = Queues::new(alloc);
    let queue = queues.add_queue()?;
    queues.reserve(6, 1)?;
    let block = queues.take_gathered(6, 9, &[0, 2], &[(1, 2), (3, 4), (5, 6)]);
    queues.push_front(queue, block);
    let mut values = [(0, 0); 3];
    queues.scatter_first(queue, 2, &[0, 2], &mut values);
    let work = queues.work();
    queues.move_front(queue, queue);
    Ok(
        values == [(1, 2), (0, 0), (5, 6)]
            && queues.work() == work
            && queues.peek(queue, 1) == Some(9),
    )
}

#[test]
fn blocks_are_queued(rt: HostRuntime) -> Result<(), AllocError> {
    assert!(rt; are_a_million_drained(rt.alloc())?);
    assert!(rt; are_moved(rt.alloc())?);
    assert!(rt; are_read_in_place(rt.alloc())?);
    Ok(())
}
