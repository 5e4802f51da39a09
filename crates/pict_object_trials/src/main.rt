//! Tries objects: processes and records that stand in one another, and bytes near to objects.
//!
//! Without a word it says what is read of each form as deep as the build of any compiler holds, and what two objects are with any
//! one byte changed. With the word `limits` it says what is read of each form at its limit and one past it. With two numbers as
//! its words, a seed and a count, it tries so many mutants that the seed begins, some of them of objects at the limits, and prints
//! how many of them are objects: `rt run -- 7 100000`. `tools/mutate-objects` calls it with these words.
#![tactic(auto)]

mod deep;
mod mutants;
mod verdict;

use anyhow::Error;
use std::env;

/// What is to be tried.
#[derive(Clone, Copy)]
enum Trial {
    /// What any compiler's build holds within the usual stack.
    Usual,
    /// Each form at its limit.
    Limits,
    /// Mutants: the seed, and how many.
    Mutants(u64, u64),
}

/// What the words ask for.
fn wanted(rt: &HostRuntime) -> Result<Trial, Error> {
    let mut args = env::args(rt)?.skip(1);
    match (args.next(), args.next()) {
        (Some(seed), Some(count)) => {
            let seed = seed.as_str().parse::<u64>()?;
            Ok(Trial::Mutants(seed, count.as_str().parse::<u64>()?))
        }
        (Some(_), None) => Ok(Trial::Limits),
        _ => Ok(Trial::Usual),
    }
}

fn main(rt: HostRuntime) -> Result<(), Error> {
    match wanted(&rt)? {
        Trial::Usual => {
            for form in &deep::FORMS {
                deep::measure(&rt, form, deep::held(form))?;
            }
            mutants::measure_bytes(&rt, "hello", mutants::HELLO)?;
            mutants::measure_bytes(&rt, "letter", &mutants::LETTER)
        }
        Trial::Limits => {
            for form in &deep::FORMS {
                deep::measure(&rt, form, deep::limit(form))?;
            }
            Ok(())
        }
        Trial::Mutants(seed, count) => mutants::measure(&rt, seed, count),
    }
}
