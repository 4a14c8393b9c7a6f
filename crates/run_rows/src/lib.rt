//! Tests of whole runs, alone: stores and sinks that fail, the host's files, each kind of
//! limits, mixed logit, two workers at a gate. They stand here, since a crate with tests is proved twice.
#![tactic(auto)]

#[cfg(test)]
mod devices;
#[cfg(test)]
mod failures;
#[cfg(test)]
mod gates;
#[cfg(test)]
mod host_files;
#[cfg(test)]
mod kinds;
#[cfg(test)]
mod meeting;
#[cfg(test)]
mod mixed;
#[cfg(test)]
mod runs;
#[cfg(test)]
mod sizes;
#[cfg(test)]
mod worked;
#[cfg(test)]
mod worlds;
