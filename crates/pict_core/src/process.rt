// Core processes.

ghost use Rattle.std.specs.Prelude.{◌≡◌, ◌-◌, ◌^◌, min, IfOk};
ghost use Rattle.pict_core.specs.Plain.{plain_core, core_of};
ghost use Rattle.pict_core.specs.Term.{depth_of};

use crate::{CorePat, CoreVal, substitute};
use pict_syntax::Span;
use std::alloc::{AllocError, Global};

/// A core process.
#[cycle(core)]
#[derive(Drop)]
pub enum Core {
    /// The inert process.
    Zero,
    /// Two processes beside each other.
    Par(Part, Part),
    /// A new channel, bound as one variable of the part.
    New(Part),
    /// An output of the message on the channel or primitive, at its place in the text.
    Out {
        chan: CoreVal,
        message: CoreVal,
        at: Span,
    },
    /// An input, replicated or not. The pattern's variables are bound in the body.
    In {
        chan: CoreVal,
        replicated: bool,
        pattern: CorePat,
        body: Part,
    },
    /// A conditional.
    If {
        test: CoreVal,
        yes: Part,
        no: Part,
    },
}

/// A part of a process: a box that is dropped in a loop along the last parts, so that dropping a process nested
/// hundreds of thousands deep on the right takes little stack.
#[cycle(core)]
pub struct Part {
    inner: Box<Core>,
}

impl Drop for Part {
    #[cycle(drop_core)]
    fn drop(mut self) {
        'parts: loop {
            match self {
                Part { inner } => match Box::into_inner(inner) {
                    Core::Zero => return,
                    Core::Out {
                        chan: _chan,
                        message: _message,
                        at: _at,
                    } => return,
                    Core::New(body) => self = body,
                    Core::In {
                        chan: _chan,
                        replicated: _replicated,
                        pattern: _pattern,
                        body,
                    } => self = body,
                    Core::Par(left, right) => {
                        drop(left);
                        self = right;
                    }
                    Core::If {
                        test: _test,
                        yes,
                        no,
                    } => {
                        drop(yes);
                        self = no;
                    }
                },
            }
        }
    }
}

impl Part {
    /// The process as a part. The only error is want of memory.
    pub fn new(alloc: Global, process: Core) -> Result<Part, AllocError>
        ensures { IfOk result (λ p. core_of p ≡ process) }
    {
        Ok(Part {
            inner: Box::new(alloc, process)?,
        })
    }

    /// The process, taken out.
    pub fn into_core(self) -> Core
        ensures { result ≡ core_of self }
    {
        match self {
            Part { inner } => Box::into_inner(inner),
        }
    }

    /// The process, lent.
    pub fn core(&self) -> &Core
        ensures { result.now ≡ core_of self.now }
    {
        &self.inner
    }
}

impl Core {
    /// The same process once more. The only error is want of memory.
    pub fn copy(&self, alloc: Global) -> Result<Core, AllocError>
        ensures { IfOk result (λ p. plain_core p ≡ plain_core self.now) }
    {
        // No variable gets a value.
        substitute(alloc, self, &[])
    }
}

/// How deep the process is nested: `Zero` and `Out` count 1, every other form one more than its deepest part. Held at
/// the greatest `u64`. Takes no memory.
pub fn depth(c: &Core) -> u64
    ensures { result ≡ min (depth_of (plain_core c.now)) (2 ^ 64 - 1) }
{
    match c {
        Core::Zero => 1,
        Core::Out { .. } => 1,
        Core::New(body) => depth(&body.inner).saturating_add(1),
        Core::In { body, .. } => depth(&body.inner).saturating_add(1),
        Core::Par(left, right) => depth(&left.inner)
            .max(depth(&right.inner))
            .saturating_add(1),
        Core::If { yes, no, .. } => depth(&yes.inner).max(depth(&no.inner)).saturating_add(1),
    }
}
