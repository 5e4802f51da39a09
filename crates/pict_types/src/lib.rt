//! Types in nameless normal form: contexts, measures, and one type put for another.
#![tactic(auto)]

mod context;
mod copy;
mod fill;
mod laws;
mod limits;
mod marking;
mod measure;
mod measures;
mod mentioning;
mod parts;
mod prints;
mod renumber;
mod same_filled;
mod same_renumbered;
mod shift;
mod types;
mod unfolding;
mod variance;

pub use context::{Context, Entry, What};
pub use fill::{apply_head, bound_by, fill_type};
pub use laws::{
    law_arguments_one_by_one, law_itself_changes_nothing, law_one_after_the_other_is_one,
    law_only_what_is_mentioned_counts,
};
pub use limits::{Measure, SizeError, too_big};
pub use marking::equal_marks;
pub use measure::Measures;
pub use measures::{height, weight};
pub use mentioning::{Variables, mentions};
pub use renumber::deeper;
pub use shift::{lower_type, shift_type};
pub use types::{Arg, Bound, Cap, Record, Ty};
pub use unfolding::unfold;
pub use variance::{Body, varies};
