// How many levels a code has.
ghost use Rattle.std.specs.Prelude.{◌≡◌, map, max};
ghost use Rattle.pict_code.specs.Plain.{plain_pat, plain_pat_field, pats_of, labelled_pats_of, plain_op, plain_node};
ghost use Rattle.pict_desk.specs.Binding.{levels_of, levels_of_all, levels_of_labelled};
ghost use Rattle.pict_desk.specs.Levels.{past, bound_by, levels_in};

use pict_code::{CodePat, Node, Op};
use pict_syntax::Name;

// The greater one.
fn greater(a: usize, b: usize) -> usize
    ensures { result ≡ max a b }
{
    if a < b { b } else { a }
}

// One more than the greatest level that the pattern binds, or 0 where it binds none.
#[cycle(pattern_end)]
fn pattern_end(pattern: &CodePat) -> usize
    ensures { result ≡ past (levels_of (plain_pat pattern.now)) }
{
    match pattern {
        CodePat::Bind(level) => *level as usize + 1,
        CodePat::Any => 0,
        CodePat::Fields {
            positional,
            labelled,
        } => {
            let first = fields_end(positional);
            greater(first, labelled_end(labelled))
        }
    }
}

// The same of fields without labels.
#[cycle(pattern_end)]
fn fields_end(patterns: &[CodePat]) -> usize
    ensures { result ≡ past (levels_of_all (pats_of (map plain_pat patterns.now))) }
{
    let mut end = 0;
    for pattern in patterns {
        end = greater(end, pattern_end(pattern));
    }
    end
}

// The same of fields with labels.
#[cycle(pattern_end)]
fn labelled_end(patterns: &[(Name, CodePat)]) -> usize
    ensures { result ≡ past (levels_of_labelled (labelled_pats_of (map plain_pat_field patterns.now))) }
{
    let mut end = 0;
    for field in patterns {
        end = greater(end, pattern_end(&field.1));
    }
    end
}

// One more than the greatest level that the instruction binds, or 0 where it binds none.
fn op_end(op: &Op) -> usize
    ensures { result ≡ past (bound_by (plain_op op.now)) }
{
    match op {
        Op::New(level, _) => *level as usize + 1,
        Op::In(_, pattern, _) => pattern_end(pattern),
        Op::Serve(_, pattern, _) => pattern_end(pattern),
        _ => 0,
    }
}

/// How many levels these nodes have: one more than the greatest that one of them binds, or 0 where they bind none. Nothing
/// recurses along them, only along the nesting of patterns.
pub fn level_count(nodes: &[Node]) -> usize
    ensures { result ≡ levels_in (map plain_node nodes.now) }
{
    let mut count = 0;
    for node in nodes {
        count = greater(count, op_end(&node.op));
    }
    count
}
