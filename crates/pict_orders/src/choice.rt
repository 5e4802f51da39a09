// Choices by place.

/// A choice by place: a ready process, and one of its partners, each counted from 0 in the order of their stamps.
#[derive(Clone, Copy, Debug, PartialEq, Eq)]
pub struct Choice {
    /// The place of the process that acts, among those that are ready.
    pub ready: usize,
    /// The place of its partner, among those that it has; 0 where it has none.
    pub partner: usize,
}
