//! Tests of jobs, histories and books: of the plain book, and of books that many threads share. They stand here so that
//! a crate isn't proved a second time for the sake of its tests.
#![tactic(auto)]

#[cfg(test)]
mod book;
#[cfg(test)]
mod cases;
#[cfg(test)]
mod events;
#[cfg(test)]
mod jobs;
#[cfg(test)]
mod low;
#[cfg(test)]
mod refused;
#[cfg(test)]
mod runs;
#[cfg(test)]
mod shared;
#[cfg(test)]
mod storms;
#[cfg(test)]
mod sums;
#[cfg(test)]
mod worked;
