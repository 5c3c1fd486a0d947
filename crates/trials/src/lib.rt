//! Many cases of reading, each run against what the rules say.
#![tactic(auto)]

#[cfg(test)]
mod edges;
#[cfg(test)]
mod reading;
#[cfg(test)]
mod sheets;
