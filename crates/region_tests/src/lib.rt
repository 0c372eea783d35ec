//! Tests of regions. They stand here so that neither their crate nor those of other tests are proved a second time for
//! their sake.
#![tactic(auto)]

#[cfg(test)]
mod chains;
#[cfg(test)]
mod courses;
#[cfg(test)]
mod edits;
#[cfg(test)]
mod figures;
#[cfg(test)]
mod frames;
#[cfg(test)]
mod runs;
#[cfg(test)]
mod squares;
#[cfg(test)]
mod together;
