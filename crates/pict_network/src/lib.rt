//! Networks of sites: what is ready at each site, what is on its way, and channels at their homes; the laws of their events.
#![tactic(auto)]

mod laws;

pub use laws::{
    law_acts_are_free, law_acts_are_viewed, law_events_keep_networks, law_moves_keep_unions,
    law_next_is_possible, law_no_event_is_wrong, law_one_site_is_oldest_first,
    law_one_site_is_the_machine, law_one_site_runs_oldest_first, law_openings_are_networks,
    law_runs_are_free, law_seed_runs_are_one, law_seeds_choose_runs, law_seeds_run_networks,
    law_unions_are_configurations,
};
