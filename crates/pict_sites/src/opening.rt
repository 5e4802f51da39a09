// A channel is opened: each site gets a queue for it.
ghost use Rattle.std.specs.Prelude.{◌≡◌, ◌≤◌, ℕ, length, Some, slice_get, OnOk};
ghost use Rattle.pict_queue.specs.QueuesState.{QueuesState};
ghost use Rattle.pict_sites.specs.Passing.{GainsQueue};

use pict_queue::Queues;
use std::alloc::AllocError;

/// Makes room for a queue more at each site. An error, which is want of memory, changes nothing but room.
pub(crate) fn reserve_queues(sites: &mut [Queues]) -> Result<(), AllocError>
    ensures count { length sites.new ≡ length sites.old }
    ensures same { (s : ℕ) (q : QueuesState) → slice_get sites.new s ≡ Some q
        → (p : QueuesState) × (slice_get sites.old s ≡ Some p) × (q ≡ record p { spare_queues = q.spare_queues }) }
    ensures room { OnOk result ((s : ℕ) (q : QueuesState) → slice_get sites.new s ≡ Some q → 1 ≤ q.spare_queues) }
{
    for s in 0..sites.len() {
        sites[s].reserve_queues(1)?;
    }
    Ok(())
}

/// A queue more at each site. Takes no memory.
pub(crate) fn add_queues(sites: &mut [Queues])
    requires room { (s : ℕ) (q : QueuesState) → slice_get sites.old s ≡ Some q → 1 ≤ q.spare_queues }
    ensures count { length sites.new ≡ length sites.old }
    ensures gains { (s : ℕ) (q : QueuesState) → slice_get sites.new s ≡ Some q
        → (p : QueuesState) × (slice_get sites.old s ≡ Some p) × GainsQueue p q }
{
    for s in 0..sites.len() {
        match sites[s].add_queue() {
            Ok(_) => {}
            Err(_) => unreachable!(),
        }
    }
}
