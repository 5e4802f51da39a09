// What stands for the variables of a type.

ghost use Rattle.std.specs.Prelude.{◌≡◌, ℕ, IfOk, IfSome, length};
ghost use Rattle.pict_normal.specs.Meanings.{meanings};
ghost use Rattle.pict_types.specs.Plain.{plain_args};
ghost use Rattle.pict_types.specs.PlainContext.{plain_context, type_context};
ghost use Rattle.pict_normal.specs.Putting.{HasRoom, IsDefined, put_head, put_type, replacement_of, variables_in};
ghost use Rattle.pict_types.specs.Replacing.{arguments, replacement_past};

use crate::numbers::fits;
use crate::put::{Put, put_of};
use pict_types::{Arg, Context, What};
use std::alloc::AllocError;

/// The source of what stands for the variables of a type.
#[derive(Clone, Copy)]
pub enum Source<'a> {
    /// Arguments for the innermost variables, the last one for variable 0.
    Arguments(&'a [Arg]),
    /// The entries of the context: variable `i` is entry `i`, counted from the innermost.
    Entries,
}

/// What stands for the variables of a type.
#[derive(Clone, Copy)]
pub struct Puts<'a, 'n> {
    pub source: Source<'a>,
    /// The context that it is written in.
    pub context: &'a Context<'n>,
}

/// What stands for variable `i`, where the arguments stand for the innermost variables.
#[tactic(auto, using(pict_types::proofs::Past::argument_rules))]
fn put_argument(args: &[Arg], i: u32) -> Put<'_>
    ensures type_ { put_type result ≡ (arguments (plain_args args.now)).type_of i }
    ensures head { put_head result ≡ (arguments (plain_args args.now)).head_of i }
    ensures room { (n : ℕ) → HasRoom n 0 i result }
{
    if (i as usize) < args.len() {
        let place = args.len() - 1 - i as usize;
        return put_of(&args[place]);
    }
    Put::Variable((i as usize - args.len()) as u32)
}

/// What stands for variable `i`, where it is entry `i` of the context.
pub fn put_entry<'a>(c: &'a Context, i: u32) -> Put<'a>
    ensures type_ { put_type result ≡ (meanings (plain_context c.now)).type_of i }
    ensures head { put_head result ≡ (meanings (plain_context c.now)).head_of i }
    ensures room { HasRoom (length (type_context c.now)) 0 i result }
{
    match c.what(i as usize) {
        None => Put::Variable((i as usize - c.len()) as u32 + c.variables()),
        Some(What::Variable(_)) => Put::Variable(c.variables_inside(i as usize)),
        Some(What::Definition(arg)) => put_of(arg).under(c.variables_inside(i as usize)),
    }
}

impl<'a, 'n> Puts<'a, 'n> {
    /// What stands for variable `i`.
    fn put_at(&self, i: u32) -> Put<'a>
        ensures type_ { put_type result ≡ (replacement_of self.now).type_of i }
        ensures head { put_head result ≡ (replacement_of self.now).head_of i }
        ensures room { HasRoom (length (variables_in self.now)) 0 i result }
    {
        match self.source {
            Source::Arguments(args) => put_argument(args, i),
            Source::Entries => put_entry(self.context, i),
        }
    }

    /// What stands for variable `i` under so many binders, written under them. An error where a `u32` can't number the
    /// variables there.
    pub fn put_under(&self, i: u32, depth: usize) -> Result<Put<'a>, AllocError>
        ensures type_ { IfOk result (λ p. put_type p ≡ (replacement_past depth (replacement_of self.now)).type_of i) }
        ensures head { IfOk result (λ p. put_head p ≡ (replacement_past depth (replacement_of self.now)).head_of i) }
        ensures room { IfOk result (λ p. HasRoom (length (variables_in self.now)) depth i p) }
    {
        if (i as usize) < depth {
            return Ok(Put::Variable(i));
        }
        let under = depth as u32;
        fits(self.context.variables(), under)?;
        Ok(self.put_at(i - under).under(under))
    }

    /// The entry of the definition that variable `i` is under so many binders; nothing where it is none. Takes no memory.
    pub fn definition(&self, i: u32, depth: usize) -> Option<usize>
        ensures { IfSome result (λ place. IsDefined self.now depth i place) }
    {
        if (i as usize) < depth {
            return None;
        }
        let place = i as usize - depth;
        match self.source {
            Source::Arguments(_) => None,
            Source::Entries => match self.context.what(place) {
                Some(What::Definition(_)) => Some(place),
                _ => None,
            },
        }
    }
}
