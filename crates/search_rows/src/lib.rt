//! Tests of the search, alone: on one thread and by several workers, of a walker, and of the desk. They stand here, since a crate with tests is proved
//! twice.
#![tactic(auto)]

#[cfg(test)]
mod desks;
#[cfg(test)]
mod gates;
#[cfg(test)]
mod goals;
#[cfg(test)]
mod rounds;
#[cfg(test)]
mod searches;
#[cfg(test)]
mod walkers;
#[cfg(test)]
mod worlds;
