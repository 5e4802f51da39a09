// Patterns of instructions.
use pict_syntax::Name;

/// A pattern of an instruction: a core pattern that says which level each of its variables has.
///
/// It binds its variables in order, positional fields first. Fields with labels stand in the order of the labels' bytes.
pub enum CodePat {
    /// Binds the value as the variable of this level.
    Bind(u32),
    /// Fits any value and binds nothing.
    Any,
    /// Fits a record with as many positional fields and at least these labels.
    Fields {
        positional: Vec<CodePat>,
        labelled: Vec<(Name, CodePat)>,
    },
}

// Written out: what is derived is proved anew in each crate that drops such a pattern.
impl Drop for CodePat {
    #[cycle(drop_pattern)]
    fn drop(self) {
        match self {
            CodePat::Bind(_) => {}
            CodePat::Any => {}
            CodePat::Fields {
                positional: _,
                labelled: _,
            } => {}
        }
    }
}
