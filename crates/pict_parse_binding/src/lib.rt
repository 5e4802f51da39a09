//! What each token leads to where types, patterns, parameters of abstractions and declarations are read.
#![tactic(auto)]

mod abstractions;
mod binders;
mod declarations;
mod patterns;
mod puts;
mod types;

pub use abstractions::{
    step_abstraction_open, step_abstraction_parameters, step_abstraction_result,
    step_need_abstraction,
};
pub use binders::{
    step_binder_kind, step_binder_name, step_hash, step_kind_arguments, step_kind_arrow,
    step_kind_mark, step_kind_result, step_need_kind,
};
pub use declarations::{
    begin_declaration, step_alias_name, step_definition_keyword, step_new_keyword, step_new_name,
    step_operator_closed, step_operator_open, step_operator_parameters, step_type_keyword,
};
pub use patterns::{
    begin_pattern, step_abstraction_pattern, step_any, step_bind, step_binders, step_let_pattern,
    step_pattern_folded, step_pattern_label, step_pattern_labels, step_pattern_name,
    step_pattern_open, step_pattern_rec, step_patterns,
};
pub use types::{
    begin_type, step_operator_arguments, step_rec_body, step_rec_keyword, step_rec_name,
    step_type_binders, step_type_label, step_type_labels, step_type_name, step_type_open,
    step_types,
};
