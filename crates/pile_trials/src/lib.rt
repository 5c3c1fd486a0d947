//! Piles of sources read to their end, each held to what the rules say.
#![tactic(auto)]

#[cfg(test)]
mod depth;
#[cfg(test)]
mod reading;
#[cfg(test)]
mod refusals;
#[cfg(test)]
mod seams;
