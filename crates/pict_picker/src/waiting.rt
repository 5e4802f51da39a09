// A process that waits for its turn or for a partner.
use pict_desk::Kept;

/// A process that waits for its turn or for a partner.
#[derive(Drop)]
pub(crate) enum Waiting {
    /// The node with this number, and the two words of each value of its frame.
    Node(u32, Vec<(u64, u64)>),
    /// An output of kept values.
    Output(Kept),
}
