//! Tests of the crates that read a design: each module calls one of them as its users do. They stand
//! here so that a crate isn't proved a second time for the sake of its tests.
#![tactic(auto)]

#[cfg(test)]
mod designs;
#[cfg(test)]
mod grammar;
#[cfg(test)]
mod hostile;
#[cfg(test)]
mod large;
#[cfg(test)]
mod layers;
#[cfg(test)]
mod placements;
#[cfg(test)]
mod random;
#[cfg(test)]
mod records;
#[cfg(test)]
mod runs;
#[cfg(test)]
mod scan;
#[cfg(test)]
mod shape;
