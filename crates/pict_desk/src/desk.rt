// What a node needs beside its code to act.
use crate::pending::Pending;
use pict_heap::Heap;

/// What a node needs beside its code to act.
#[derive(Drop)]
pub struct Desk {
    /// Texts and records.
    pub heap: Heap,
    /// Fields of records that are being made.
    pub pending: Pending,
    /// The two words of each level's value, while a node acts.
    pub values: Vec<(u64, u64)>,
}
