//! Calls whose arguments are read, each held to what the rules say.
#![tactic(auto)]

#[cfg(test)]
mod bodies;
#[cfg(test)]
mod counts;
#[cfg(test)]
mod divisions;
#[cfg(test)]
mod refusals;
#[cfg(test)]
mod trying;
