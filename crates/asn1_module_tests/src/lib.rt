//! Tests of the crates for modules and for values: the notation, schemas, JSON and the builder.
//!
//! They are in a crate of their own, so that no crate is proved a second time for its tests.
#![tactic(auto)]

#[cfg(test)]
mod as_json;
#[cfg(test)]
mod canonical;
#[cfg(test)]
mod defaults;
#[cfg(test)]
mod encoded;
#[cfg(test)]
mod lengths;
#[cfg(test)]
mod notation;
#[cfg(test)]
mod parts;
#[cfg(test)]
mod people;
#[cfg(test)]
mod reals;
#[cfg(test)]
mod record;
#[cfg(test)]
mod resolve;
#[cfg(test)]
mod tables;
#[cfg(test)]
mod values;
