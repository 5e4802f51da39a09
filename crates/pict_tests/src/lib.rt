//! Tests of whole programs: the command over devices that fail, its phases, the translation, and the machine beside the definition of its
//! steps. Nothing else stands here. What the command answers over files stands in the tables of calls.
#![tactic(auto)]

#[cfg(test)]
mod blocks;
#[cfg(test)]
mod codes;
#[cfg(test)]
mod cuts;
#[cfg(test)]
mod devices;
#[cfg(test)]
mod orders;
#[cfg(test)]
mod phases;
#[cfg(test)]
mod primitives;
#[cfg(test)]
mod steps;
#[cfg(test)]
mod translation;
