//! Tests of the steps, alone: what each answers over problems from two CSV texts, and how often one is called; of worked chains,
//! and of certificates in pieces. They stand here, since a crate with tests is proved twice.
#![tactic(auto)]

#[cfg(test)]
mod chains;
#[cfg(test)]
mod pieces;
#[cfg(test)]
mod printed;
#[cfg(test)]
mod problems;
#[cfg(test)]
mod step_counts;
#[cfg(test)]
mod steps;
