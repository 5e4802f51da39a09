// Who has the turn.
use pict_desk::Kept;

/// Who has the turn: it acts next, before the ready ones in queue 0, and stands in no block.
#[derive(Clone, Copy)]
pub enum Turn {
    /// Nobody. The first of queue 0 is next.
    Nobody,
    /// The node with this number. The levels of its frame have its values.
    Node(usize),
    /// The node with this number, whose frame has more than `NARROW_LIMIT` levels. They have its values, which are the fields
    /// of the record of these two words as well.
    Wide(usize, (u64, u64)),
    /// An output of kept values.
    Output(Kept),
}
