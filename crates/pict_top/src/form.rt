// How what a step shows is written.

/// How what a step shows is written.
#[derive(Clone, Copy, Debug, PartialEq, Eq)]
pub enum Form {
    /// The bytes that it prints.
    Printed,
    /// A line, of communications too.
    Line,
}
