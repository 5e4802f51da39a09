//! Tests of searches through all orders: a race, two locks, servers, and divisions by zero. Nothing else stands here.
#![tactic(auto)]

#[cfg(test)]
mod races;
