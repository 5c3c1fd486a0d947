//! The gullet: steps and outside calls over any source. So far its parts and its reading; no call is here yet.
#![tactic(auto)]

mod assigning;
mod automaton;
mod coding;
mod comparing;
mod completing;
mod conditions;
mod deciding;
mod definition;
mod draft;
mod drafting;
mod driver;
mod fault;
mod faults;
mod feeding;
mod grouping;
mod letting;
mod naming;
mod parts;
mod putting;
mod recoding;
mod skipping;
mod telling;
mod turn;
mod waiting;
