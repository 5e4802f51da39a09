// Which tokens may stand behind others.

ghost use Rattle.std.specs.Prelude.{◌≡◌, ◌↔◌, IfOk, IsTrue};
ghost use Rattle.pict_follow.specs.Follow.{AreThose, CanFollow, CanGoOn};

use crate::class::{Class, sample_of};
use crate::verdict::{END, goes_on};
use pict_syntax::Token;
use std::alloc::{AllocError, Global};

/// Those of these kinds of which a token may stand behind these tokens, in their order: some program begins with the tokens and
/// one of this kind behind them. Where that one would be nested too deep, its kind is told all the same. With the tokens some
/// program begins, and none of them is nested too deep, as `can_go_on` tells. They are as before afterwards. The only error is
/// want of memory. Takes the time of a parse for each kind.
pub fn could_stand(
    alloc: Global,
    tokens: &mut Vec<Token>,
    classes: &[Class],
) -> Result<Vec<Class>, AllocError>
    requires begins { CanGoOn tokens.old.items }
    ensures exact { IfOk result (λ found. AreThose (CanFollow tokens.old.items) classes.now found.items) }
    ensures same { tokens.new.items ≡ tokens.old.items }
{
    let mut found = Vec::new(alloc);
    for class in classes {
        let stands = can_follow(alloc, tokens, *class)?;
        if stands {
            found.push(*class)?;
        }
    }
    Ok(found)
}

/// Whether a token of this kind may stand behind these tokens, which are as before afterwards. The only error is want of
/// memory.
fn can_follow(alloc: Global, tokens: &mut Vec<Token>, class: Class) -> Result<bool, AllocError>
    requires begins { CanGoOn tokens.old.items }
    ensures exact { IfOk result (λ b. IsTrue b ↔ CanFollow tokens.old.items class) }
    ensures same { tokens.new.items ≡ tokens.old.items }
{
    tokens.push(sample_of(alloc, class))?;
    let answer = goes_on(alloc, tokens, END);
    let _ = tokens.pop();
    answer
}
