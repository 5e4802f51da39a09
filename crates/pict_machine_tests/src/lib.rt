//! Tests of processes, their codes, and what the machine is made of: worked rows, printed texts, and devices that fail. Nothing else stands here.
#![tactic(auto)]

#[cfg(test)]
mod heaps;
#[cfg(test)]
mod lines;
#[cfg(test)]
mod loads;
#[cfg(test)]
mod primitives;
#[cfg(test)]
mod processes;
#[cfg(test)]
mod queues;
#[cfg(test)]
mod ranks;
#[cfg(test)]
mod regions;
#[cfg(test)]
mod replays;
#[cfg(test)]
mod values;
#[cfg(test)]
mod words;
