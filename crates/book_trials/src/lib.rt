//! The book at its limits, and groups with local and global assignments.
#![tactic(auto)]

#[cfg(test)]
mod groups;
#[cfg(test)]
mod limits;
