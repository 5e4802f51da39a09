// The processes of a picker.
use crate::waiting::Waiting;
use pict_ranked::Ranked;

/// The processes of a picker, in the order of their stamps.
#[derive(Drop)]
pub(crate) struct Lists {
    /// The ready ones.
    pub(crate) ready: Ranked<Waiting>,
    /// What is parked at each channel.
    pub(crate) channels: Vec<Ranked<Waiting>>,
}
