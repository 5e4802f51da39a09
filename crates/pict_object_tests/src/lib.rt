//! Tests of objects: bytes that are one and bytes that are none, written out by hand. Nothing else stands here.
#![tactic(auto)]

#[cfg(test)]
mod answers;
#[cfg(test)]
mod labels;
#[cfg(test)]
mod tables;
