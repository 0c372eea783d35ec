//! Tests of devices, of reports and the command line, and of the subcommands over devices that fail. What they make of whole inputs is told by cases/. They stand here so that a crate isn't proved a second time for the sake of its tests.
#![tactic(auto)]

#[cfg(test)]
mod devices;
#[cfg(test)]
mod fills;
#[cfg(test)]
mod inputs;
#[cfg(test)]
mod line;
#[cfg(test)]
mod metal;
#[cfg(test)]
mod parts;
#[cfg(test)]
mod reports;
#[cfg(test)]
mod wire;
