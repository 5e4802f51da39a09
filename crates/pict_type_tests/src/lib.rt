//! Tests of types: program texts and what the rules of types say of them, in tables. Nothing else stands here.
#![tactic(auto)]

#[cfg(test)]
mod answers;
#[cfg(test)]
mod calls;
#[cfg(test)]
mod forms;
#[cfg(test)]
mod sharing;
#[cfg(test)]
mod types;
#[cfg(test)]
mod typing;
#[cfg(test)]
mod variance;
