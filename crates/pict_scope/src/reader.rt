// The reader: the scopes around the place where it is, and what it has answered so far.

ghost use Rattle.std.specs.Prelude.{◌≡◌, [], suc, IfOk, OnOk};
ghost use Rattle.pict_scope.specs.Around.{past_type, with_pattern_type, with_type, with_value};
ghost use Rattle.pict_scope.specs.Outlines.{binds_type, binds_value, defines, empty, once, pattern_value, type_use, value_use};
ghost use Rattle.pict_scope.specs.Reads.{IsRead, Moves, around};
ghost use Rattle.pict_scope.specs.Scopes.{outermost};

use crate::error::ScopeError;
use crate::layer::Layer;
use crate::primitives::primitive_named;
use crate::target::Target;
use pict_binders::{Binder, Binders};
use pict_syntax::{Code, Id, Name, Names, Span};
use std::alloc::{AllocError, Global};

/// A reader of a program, in reading order.
#[derive(Drop)]
pub struct Reader<'a> {
    pub alloc: Global,
    pub names: &'a Names,
    /// The binders around the place.
    pub values: Binders,
    pub types: Binders,
    /// The binders of the pattern that is being read.
    pub pattern_values: Layer,
    pub pattern_types: Layer,
    /// The names of the group that is being read. Their numbers mean nothing.
    pub group: Layer,
    pub next_value: u32,
    pub next_type: u32,
    /// What the uses so far mean.
    pub value_targets: Vec<Target>,
    pub type_targets: Vec<u32>,
    /// The binders of values so far, in reading order.
    pub order: Vec<u32>,
}

/// How many binders there are around a place.
#[derive(Clone, Copy)]
pub struct Place {
    pub values: usize,
    pub types: usize,
}

/// What a pattern binds over what comes after it: the last one first.
#[derive(Drop)]
pub struct Opened {
    pub values: Vec<Binder>,
    pub types: Vec<Binder>,
}

impl<'a> Reader<'a> {
    /// A reader at the beginning of a program. Takes no memory.
    pub fn new(alloc: Global, names: &'a Names) -> Reader<'a>
        ensures around { around result ≡ outermost names.now }
        ensures values { result.value_targets.items ≡ [] }
        ensures types { result.type_targets.items ≡ [] }
        ensures order { result.order.items ≡ [] }
    {
        Reader {
            alloc,
            names,
            values: Binders::new(alloc),
            types: Binders::new(alloc),
            pattern_values: Layer::new(alloc),
            pattern_types: Layer::new(alloc),
            group: Layer::new(alloc),
            next_value: 0,
            next_type: 0,
            value_targets: Vec::new(alloc),
            type_targets: Vec::new(alloc),
            order: Vec::new(alloc),
        }
    }

    /// A use of a value: its nearest binder, or else the primitive.
    #[tactic(auto, unfolding(crate::specs::Outlines::opens, crate::specs::Outlines::marks))]
    pub fn use_value(&mut self, span: Span, name: Name) -> Result<(), ScopeError>
        ensures { IsRead (value_use span name.0) self.old self.new result }
    {
        let target = match self.values.nearest(name) {
            Some(number) => Target::Binder(number),
            None => match primitive_named(self.names.text(name)) {
                Some(primitive) => Target::Prim(primitive),
                None => return Err(ScopeError::Named(Code::S1, span)),
            },
        };
        self.value_targets.push(target)?;
        Ok(())
    }

    /// A use of a type: its nearest binder.
    #[tactic(auto, unfolding(crate::specs::Outlines::opens, crate::specs::Outlines::marks))]
    pub fn use_type(&mut self, span: Span, name: Name) -> Result<(), ScopeError>
        ensures { IsRead (type_use span name.0) self.old self.new result }
    {
        match self.types.nearest(name) {
            Some(number) => {
                self.type_targets.push(number)?;
                Ok(())
            }
            None => Err(ScopeError::Named(Code::S2, span)),
        }
    }

    /// A name that may stand once in its group.
    #[tactic(auto, using(crate::proofs::Groups::once_again, crate::proofs::Groups::once_first))]
    pub fn once(&mut self, code: Code, id: Id) -> Result<(), ScopeError>
        ensures { IsRead (once code id) self.old self.new result }
    {
        match self.group.nearest(id.name) {
            Some(_) => Err(ScopeError::Named(code, id.span)),
            None => {
                self.group.bind(Binder {
                    name: id.name.0,
                    number: 0,
                })?;
                Ok(())
            }
        }
    }

    /// A binder of a value over what comes after it.
    #[tactic(auto, unfolding(crate::specs::Outlines::opens, crate::specs::Outlines::marks))]
    pub fn bind_value(&mut self, id: Id) -> Result<(), ScopeError>
        ensures { IsRead (binds_value id) self.old self.new result }
    {
        let number = self.next_value;
        let next = after(number)?;
        self.order.push(number)?;
        self.values.bind(Binder {
            name: id.name.0,
            number,
        })?;
        self.next_value = next;
        Ok(())
    }

    /// Binds a value whose identifier comes later. The only error is want of memory.
    pub fn bind_ahead(&mut self, id: Id) -> Result<(), AllocError>
        ensures { OnOk result (Moves (with_value id) self.old self.new) }
    {
        let number = self.next_value;
        let next = after(number)?;
        self.values.bind(Binder {
            name: id.name.0,
            number,
        })?;
        self.next_value = next;
        Ok(())
    }

    /// A binder of a value in a pattern.
    #[tactic(auto, unfolding(crate::specs::Outlines::opens, crate::specs::Outlines::marks))]
    pub fn bind_pattern_value(&mut self, id: Id) -> Result<(), ScopeError>
        ensures { IsRead (pattern_value id) self.old self.new result }
    {
        if self.pattern_values.nearest(id.name).is_some() {
            return Err(ScopeError::Named(Code::S3, id.span));
        }
        let number = self.next_value;
        let next = after(number)?;
        self.order.push(number)?;
        self.pattern_values.bind(Binder {
            name: id.name.0,
            number,
        })?;
        self.next_value = next;
        Ok(())
    }

    /// The identifier of a value that is bound already.
    #[tactic(auto, unfolding(crate::specs::Outlines::opens, crate::specs::Outlines::marks))]
    pub fn define(&mut self, id: Id) -> Result<(), ScopeError>
        ensures { IsRead (defines id) self.old self.new result }
    {
        match self.values.nearest(id.name) {
            None => Ok(()),
            Some(number) => {
                self.order.push(number)?;
                Ok(())
            }
        }
    }

    /// The number of the next binder of a type. The only error is want of memory.
    pub fn number_type(&mut self) -> Result<u32, AllocError>
        ensures number { IfOk result (λ n. n ≡ self.old.next_type) }
        ensures moves { OnOk result (Moves past_type self.old self.new) }
    {
        let number = self.next_type;
        self.next_type = after(number)?;
        Ok(number)
    }

    /// Binds a type that has this number. The only error is want of memory.
    pub fn bind_type(&mut self, id: Id, number: u32) -> Result<(), AllocError>
        ensures { OnOk result (Moves (with_type id number) self.old self.new) }
    {
        self.types.bind(Binder {
            name: id.name.0,
            number,
        })
    }

    /// Binds a type that has this number in a pattern. The only error is want of memory.
    pub fn bind_pattern_type(&mut self, id: Id, number: u32) -> Result<(), AllocError>
        ensures { OnOk result (Moves (with_pattern_type id number) self.old self.new) }
    {
        let binder = Binder {
            name: id.name.0,
            number,
        };
        self.types.bind(binder)?;
        self.pattern_types.bind(binder)
    }

    /// A binder of a type over what comes right after it.
    #[tactic(auto, using(crate::proofs::Reading::reading))]
    pub fn bind_type_here(&mut self, id: Id) -> Result<(), ScopeError>
        ensures { IsRead (binds_type id empty) self.old self.new result }
    {
        let number = self.number_type()?;
        self.bind_type(id, number)?;
        Ok(())
    }
}

/// The number after this one. The only error is want of memory.
fn after(number: u32) -> Result<u32, AllocError>
    ensures { IfOk result (λ n. n ≡ suc number) }
{
    match number.checked_add(1) {
        None => Err(AllocError),
        Some(next) => Ok(next),
    }
}
