// Types in normal form: no definition is left, only operator variables are applied, and variables have no names.

ghost use Rattle.std.specs.Prelude.{◌≡◌};

use pict_syntax::{Mark, Name};
use std::rc::Rc;

/// What may be done with a channel.
#[derive(Clone, Copy, PartialEq, Eq, Debug)]
pub enum Cap {
    /// `^`: send and receive.
    Both,
    /// `?`: receive.
    Read,
    /// `!`: send.
    Write,
    /// `/`: send, once for each answer that is awaited.
    Respond,
}

/// A type in normal form. Its parts are shared: a copy has the same parts.
///
/// A type variable, and an operator variable that is applied, is the number of binders between the use and its
/// binder. Binders are the type fields of a record, over the later type fields and all fields of that record, and
/// `Rec` over its body. The variables of the context come after them.
#[cycle(types)]
pub enum Ty {
    /// `Top`, above every type.
    Top,
    /// `Int`.
    Int,
    /// `Char`.
    Char,
    /// `String`.
    Str,
    /// `Bool`.
    Bool,
    /// A type variable.
    Var(u32),
    /// An operator variable with its arguments.
    Apply(u32, Rc<Vec<Ty>>),
    /// A channel type with the type of its messages.
    Chan(Cap, Rc<Ty>),
    /// A record type.
    Fields(Rc<Record>),
    /// A recursive type; its body has one more variable, which stands for the whole.
    Rec(Rc<Ty>),
}

// Written out, as those below: what is derived is proved anew in each crate that drops such a value.
impl Drop for Ty {
    #[cycle(drop_types)]
    fn drop(self) {
        match self {
            Ty::Top => {}
            Ty::Int => {}
            Ty::Char => {}
            Ty::Str => {}
            Ty::Bool => {}
            Ty::Var(_) => {}
            Ty::Apply(_, _) => {}
            Ty::Chan(_, _) => {}
            Ty::Fields(_) => {}
            Ty::Rec(_) => {}
        }
    }
}

/// The type fields, the positional fields and the labelled fields of a record type.
#[cycle(types)]
pub struct Record {
    /// The type fields by their bounds, each written under those before it.
    pub binders: Vec<Bound>,
    /// The positional fields, written under all type fields.
    pub positional: Vec<Ty>,
    /// The labelled fields in the order of the bytes of their labels, written under all type fields.
    pub labelled: Vec<(Name, Ty)>,
}

impl Drop for Record {
    #[cycle(drop_types)]
    fn drop(self) {
        let Record {
            binders: _,
            positional: _,
            labelled: _,
        } = self;
    }
}

/// What is known of a type variable.
#[cycle(types)]
pub enum Bound {
    /// Any type.
    Free,
    /// A subtype of this type. `Top` is no bound: where one is made, `Free` stands in its place.
    Below(Ty),
    /// An operator of as many arguments as marks, which varies as they say.
    Operator(Vec<Mark>),
}

impl Drop for Bound {
    #[cycle(drop_types)]
    fn drop(self) {
        match self {
            Bound::Free => {}
            Bound::Below(_) => {}
            Bound::Operator(_) => {}
        }
    }
}

/// What may stand for a type variable.
#[derive(Drop)]
pub enum Arg {
    /// A type.
    Plain(Ty),
    /// An operator. The parameters are the innermost variables of its body, the last one at 0.
    Op { params: u32, body: Ty },
}

impl Bound {
    ghost use Rattle.pict_types.specs.Entries.{Variable};
    ghost use Rattle.pict_types.specs.Plain.{plain_bound};
    ghost use Rattle.pict_types.specs.Places.{arity};

    /// Of how many arguments a variable with this bound is an operator; nothing where it is a type. Takes no memory.
    pub fn arity(&self) -> Option<usize>
        ensures { result ≡ arity (Variable (plain_bound self.now)) }
    {
        match self {
            Bound::Free => None,
            Bound::Below(_) => None,
            Bound::Operator(marks) => Some(marks.as_slice().len()),
        }
    }
}

impl Arg {
    ghost use Rattle.pict_types.specs.Entries.{Definition};
    ghost use Rattle.pict_types.specs.Types.{is_top};
    ghost use Rattle.pict_types.specs.Plain.{plain_arg};
    ghost use Rattle.pict_types.specs.Places.{arity};
    ghost use Rattle.pict_types.specs.Replacing.{type_in};

    /// Of how many arguments it is an operator; nothing where it is a type. Takes no memory.
    pub fn arity(&self) -> Option<usize>
        ensures { result ≡ arity (Definition (plain_arg self.now)) }
    {
        match self {
            Arg::Plain(_) => None,
            Arg::Op { params, .. } => Some(*params as usize),
        }
    }

    /// Whether `Top` is put for a type variable by it: it is `Top`, or an operator. Takes no memory.
    pub fn is_top(&self) -> bool
        ensures { result ≡ is_top (type_in (plain_arg self.now)) }
    {
        match self {
            Arg::Plain(t) => t.is_top(),
            Arg::Op { .. } => true,
        }
    }
}

impl Ty {
    ghost use Rattle.pict_types.specs.Types.{is_top};
    ghost use Rattle.pict_types.specs.Plain.{plain};

    /// Whether it is `Top`. Takes no memory.
    pub fn is_top(&self) -> bool
        ensures { result ≡ is_top (plain self.now) }
    {
        match self {
            Ty::Top => true,
            Ty::Int
            | Ty::Char
            | Ty::Str
            | Ty::Bool
            | Ty::Var(_)
            | Ty::Apply(..)
            | Ty::Chan(..)
            | Ty::Fields(_)
            | Ty::Rec(_) => false,
        }
    }
}
