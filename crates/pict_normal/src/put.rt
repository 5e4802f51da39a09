// What stands for a variable.

ghost use Rattle.std.specs.Prelude.{◌≡◌, ◌+◌, ℕ};
ghost use Rattle.pict_types.specs.Plain.{plain_arg};
ghost use Rattle.pict_normal.specs.Putting.{CanMove, HasRoom, put_head, put_type};
ghost use Rattle.pict_types.specs.Renaming.{moved, plus, rename};
ghost use Rattle.pict_types.specs.Replacing.{head_in, rename_head, type_in};

use pict_types::{Arg, Ty};

/// What stands for a variable.
#[derive(Clone, Copy)]
pub enum Put<'a> {
    /// A variable.
    Variable(u32),
    /// A type that is written without the so many innermost variables.
    Proper(&'a Ty, u32),
    /// An operator that is written without the `by` innermost variables.
    Operator { params: u32, body: &'a Ty, by: u32 },
}

impl<'a> Put<'a> {
    /// The same under so many more binders.
    pub fn under(self, count: u32) -> Put<'a>
        requires room { CanMove count self }
        ensures type_ { put_type result ≡ rename (moved count 0) (put_type self.entry) }
        ensures head { put_head result ≡ rename_head (plus count) (put_head self.entry) }
        ensures room { (n d i : ℕ) → HasRoom n d i self.entry → HasRoom n (d + count) i result }
    {
        match self {
            Put::Variable(k) => Put::Variable(k + count),
            Put::Proper(t, by) => Put::Proper(t, by + count),
            Put::Operator { params, body, by } => Put::Operator {
                params,
                body,
                by: by + count,
            },
        }
    }
}

/// An argument as what stands for a variable.
pub fn put_of(arg: &Arg) -> Put<'_>
    ensures type_ { put_type result ≡ type_in (plain_arg arg.now) }
    ensures head { put_head result ≡ head_in (plain_arg arg.now) }
    ensures room { (n i : ℕ) → HasRoom n 0 i result }
{
    match arg {
        Arg::Plain(t) => Put::Proper(t, 0),
        Arg::Op { params, body } => Put::Operator {
            params: *params,
            body,
            by: 0,
        },
    }
}
