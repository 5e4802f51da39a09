// The nodes of a process' code, counted.

use pict_core::Core;

/// How many nodes the code of a process has.
pub fn size(process: &Core) -> usize {
    match process {
        Core::Zero => 1,
        Core::Out { .. } => 1,
        Core::New(body) => size(body.core()).saturating_add(1),
        Core::In { body, .. } => size(body.core()).saturating_add(1),
        Core::Par(left, right) => size(left.core())
            .saturating_add(size(right.core()))
            .saturating_add(1),
        Core::If { yes, no, .. } => size(yes.core())
            .saturating_add(size(no.core()))
            .saturating_add(1),
    }
}
