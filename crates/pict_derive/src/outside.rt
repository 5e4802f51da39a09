// What stands around the rest of a process while the rest isn't built yet.
ghost use Rattle.std.specs.Prelude.{◌≡◌, ◌+◌, [], ◌∷◌, ◌++◌, IfOk, OnOk};
ghost use Rattle.pict_core.specs.Plain.{plain_core, plain_pat};
ghost use Rattle.pict_derive.specs.Built.{layer_of, layers_of};
ghost use Rattle.pict_derive.specs.Layers.{around};

use crate::terms::core_input;
use pict_core::{Core, CorePat, CoreVal, Part};
use std::alloc::{AllocError, Global};

/// One thing that stands around a rest.
#[derive(Drop)]
pub enum Layer {
    /// A new channel.
    New,
    /// This process beside it.
    Beside(Core),
    /// `(chan?*pattern = the rest) | sent`
    Reader {
        chan: u32,
        pattern: CorePat,
        sent: Core,
    },
}

/// What stands around a rest, from the outside in, and the number of variables that are bound around the rest.
#[derive(Drop)]
pub struct Outside {
    layers: Vec<Layer>,
    pub depth: u32,
}

impl Outside {
    ghost use Rattle.std.specs.Prelude.{◌≡◌, ◌+◌, [], ◌∷◌, true, None, List, IfOk, OnOk};
    ghost use Rattle.pict_core.specs.Closed.{binds};
    ghost use Rattle.pict_core.specs.Plain.{plain_core, plain_pat};
    ghost use Rattle.pict_core.specs.Term.{Val, Var};
    ghost use Rattle.pict_translation.specs.Arguments.{with_value};
    ghost use Rattle.pict_translation.specs.Placed.{Placed, beside, each, input, new_channel, variables};
    ghost use Rattle.pict_derive.specs.Built.{Nests, PutsOneReader, PutsReader, layers_of, surround};

    /// Nothing, under so many variables. Takes no memory.
    pub fn new(alloc: Global, depth: u32) -> Outside
        ensures core { (p : Placed) → surround result p ≡ p depth }
        ensures depth { result.depth ≡ depth }
    {
        Outside {
            layers: Vec::new(alloc),
            depth,
        }
    }

    /// A new channel around the rest: its level.
    pub fn new_channel(&mut self) -> Result<u32, AllocError>
        ensures core { IfOk result (λ x. (f : Val → Placed) → surround self.old (new_channel f) ≡ surround self.new (f (Var x))) }
        ensures level { IfOk result (λ x. x ≡ self.old.depth) }
        ensures depth { OnOk result (self.new.depth ≡ self.old.depth + 1) }
    {
        let level = self.depth;
        let inside = level_after(level)?;
        self.layers.push(Layer::New)?;
        self.depth = inside;
        Ok(level)
    }

    /// This process beside the rest.
    pub fn beside(&mut self, left: Core) -> Result<(), AllocError>
        ensures core { OnOk result ((p q : Placed) → plain_core left ≡ p self.old.depth → surround self.old (beside p q) ≡ surround self.new q) }
        ensures depth { self.new.depth ≡ self.old.depth }
    {
        self.layers.push(Layer::Beside(left))?;
        Ok(())
    }

    /// `(chan?*pattern = the rest) | sent`, with so many variables around the rest.
    pub fn read(
        &mut self,
        chan: u32,
        pattern: CorePat,
        inside: u32,
        sent: Core,
    ) -> Result<(), AllocError>
        ensures { OnOk result (PutsReader self.old self.new chan (plain_pat pattern) inside (plain_core sent)) }
    {
        self.layers.push(Layer::Reader {
            chan,
            pattern,
            sent,
        })?;
        self.depth = inside;
        Ok(())
    }

    /// `(chan?*x = the rest) | sent`: the level of x.
    pub fn read_one(&mut self, chan: u32, sent: Core) -> Result<u32, AllocError>
        ensures { IfOk result (PutsOneReader self.old self.new chan (plain_core sent)) }
    {
        let level = self.depth;
        let inside = level_after(level)?;
        self.read(chan, CorePat::Bind, inside, sent)?;
        Ok(level)
    }

    /// `new k ((k?*x = body) | the rest)`: the level of k. The body stands under two variables more than the rest did.
    pub fn nest(&mut self, alloc: Global, body: Core) -> Result<u32, AllocError>
        ensures { IfOk result (Nests self.old self.new (plain_core body)) }
    {
        let level = self.new_channel()?;
        let reader = core_input(alloc, CoreVal::Var(level), true, CorePat::Bind, body)?;
        self.beside(reader)?;
        Ok(level)
    }

    /// The whole process, with this one as the rest.
    pub fn around(self, alloc: Global, rest: Core) -> Result<Core, AllocError>
        ensures { IfOk result (λ core. (p : Placed) → plain_core rest ≡ p self.depth → plain_core core ≡ surround self p) }
    {
        match self {
            Outside {
                layers,
                depth: _depth,
            } => put_around(alloc, layers, rest),
        }
    }
}

/// The number after this one. A number past 32 bits is want of memory.
pub fn level_after(level: u32) -> Result<u32, AllocError>
    ensures { IfOk result (λ n. n ≡ level + 1) }
{
    match level.checked_add(1) {
        Some(after) => Ok(after),
        None => Err(AllocError),
    }
}

/// The layers around a process.
fn put_around(alloc: Global, mut layers: Vec<Layer>, inner: Core) -> Result<Core, AllocError>
    ensures { IfOk result (λ core. plain_core core ≡ around (layers_of layers.items) (plain_core inner)) }
{
    let mut rest = inner;
    while let Some(layer) = layers.pop() {
        rest = put_on(alloc, layer, rest)?;
    }
    Ok(rest)
}

/// A layer around a process.
fn put_on(alloc: Global, layer: Layer, rest: Core) -> Result<Core, AllocError>
    ensures { IfOk result (λ core. plain_core core ≡ around (layer_of layer ∷ []) (plain_core rest)) }
{
    let rest = Part::new(alloc, rest)?;
    match layer {
        Layer::New => Ok(Core::New(rest)),
        Layer::Beside(left) => Ok(Core::Par(Part::new(alloc, left)?, rest)),
        Layer::Reader {
            chan,
            pattern,
            sent,
        } => {
            let reader = Part::new(
                alloc,
                Core::In {
                    chan: CoreVal::Var(chan),
                    replicated: true,
                    pattern,
                    body: rest,
                },
            )?;
            Ok(Core::Par(reader, Part::new(alloc, sent)?))
        }
    }
}
