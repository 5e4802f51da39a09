// How many levels the frames of a process may have.
ghost use Rattle.std.specs.Prelude.{◌≡◌, ◌≤◌, ◌<◌, ◌+◌, ◌-◌, ◌^◌, min, map, None, IfSome, OnOk, OnErr};
ghost use Rattle.pict_core.specs.Closed.{binds, binds_all, binds_labelled};
ghost use Rattle.pict_core.specs.Plain.{plain_core, plain_pat, plain_pat_field, pats_of, labelled_pats_of};
ghost use Rattle.pict_exec.specs.Room.{bound_around};

use pict_core::{Core, CorePat};
use pict_syntax::Name;
use std::alloc::AllocError;

/// The most variables that may be bound around the parts of a process that is run, those around each part counted: the frames of its
/// code have together no more levels, each of four bytes, which is 4 GiB.
pub const FRAME_LIMIT: u64 = 1_073_741_824;

/// Whether the frames of a process have room: want of memory exactly where more variables are bound around its parts than the limit
/// says. Takes no memory, and a time in proportion to the process.
pub(crate) fn check_frames(core: &Core) -> Result<(), AllocError>
    ensures ok { OnOk result (bound_around 0 (plain_core core.now) ≤ FRAME_LIMIT) }
    ensures memory { OnErr result (FRAME_LIMIT < bound_around 0 (plain_core core.now)) }
{
    match rest_of(core, 0, FRAME_LIMIT) {
        Some(_) => Ok(()),
        None => Err(AllocError),
    }
}

// What is left of so many levels behind a process, around which so many variables are bound; nothing where there are too few.
#[tactic(auto, using(crate::proofs::Rooms::at_least))]
fn rest_of(core: &Core, around: u64, left: u64) -> Option<u64>
    requires few { left < 2 ^ 63 }
    ensures rest { IfSome result (λ rest. rest + bound_around around (plain_core core.now) ≡ left) }
    ensures none { result ≡ None → left < bound_around around (plain_core core.now) }
{
    let behind = left.checked_sub(around)?;
    match core {
        Core::Zero => Some(behind),
        Core::Out { .. } => Some(behind),
        Core::New(body) => rest_of(body.core(), around + 1, behind),
        Core::In { pattern, body, .. } => rest_of(
            body.core(),
            around.saturating_add(variables(pattern)),
            behind,
        ),
        Core::Par(first, second) => {
            let between = rest_of(first.core(), around, behind)?;
            rest_of(second.core(), around, between)
        }
        Core::If { yes, no, .. } => {
            let between = rest_of(yes.core(), around, behind)?;
            rest_of(no.core(), around, between)
        }
    }
}

// How many variables a pattern binds. Held at the greatest `u64`.
#[cycle(variables)]
fn variables(pattern: &CorePat) -> u64
    ensures { result ≡ min (binds (plain_pat pattern.now)) (2 ^ 64 - 1) }
{
    match pattern {
        CorePat::Bind => 1,
        CorePat::Any => 0,
        CorePat::Fields {
            positional,
            labelled,
        } => variables_in(positional).saturating_add(variables_in_fields(labelled)),
    }
}

#[cycle(variables)]
fn variables_in(patterns: &[CorePat]) -> u64
    ensures { result ≡ min (binds_all (pats_of (map plain_pat patterns.now))) (2 ^ 64 - 1) }
{
    let mut count: u64 = 0;
    for pattern in patterns {
        count = count.saturating_add(variables(pattern));
    }
    count
}

#[cycle(variables)]
fn variables_in_fields(fields: &[(Name, CorePat)]) -> u64
    ensures { result ≡ min (binds_labelled (labelled_pats_of (map plain_pat_field fields.now))) (2 ^ 64 - 1) }
{
    let mut count: u64 = 0;
    for field in fields {
        count = count.saturating_add(variables(&field.1));
    }
    count
}
