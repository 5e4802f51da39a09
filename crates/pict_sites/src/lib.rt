//! Networks of sites: the queues of each site, packets between them, and one event after another, whichever is chosen.
#![tactic(auto)]

mod acting;
mod alone;
mod calling;
mod choosing;
mod delivering;
mod did;
mod event;
mod happened;
mod laws;
mod lending;
mod loading;
mod network;
mod opening;
mod passing;
mod places;
mod running;
mod sites;
mod standing;
mod turning;

pub use happened::Happened;
pub use laws::law_runs_are_right;
pub use network::Network;
