//! Tests of the crates below the book: each module calls one of them as its users do. They stand here
//! so that a crate isn't proved a second time for the sake of its tests.
#![tactic(auto)]

#[cfg(test)]
mod area;
#[cfg(test)]
mod base;
#[cfg(test)]
mod measure;
#[cfg(test)]
mod parts;
#[cfg(test)]
mod raster;
#[cfg(test)]
mod region;
#[cfg(test)]
mod size;
#[cfg(test)]
mod spans;
#[cfg(test)]
mod sums;
#[cfg(test)]
mod text;
