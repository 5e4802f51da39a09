//! Tests of what is read: names and bytes, devices, tokens, programs, the texts that they reach, and scopes; and of what is told of
//! wrong tokens. Nothing else stands here.
#![tactic(auto)]

#[cfg(test)]
mod answers;
#[cfg(test)]
mod basics;
#[cfg(test)]
mod devices;
#[cfg(test)]
mod imports;
#[cfg(test)]
mod programs;
#[cfg(test)]
mod scopes;
#[cfg(test)]
mod tokens;
#[cfg(test)]
mod wrong_tokens;
