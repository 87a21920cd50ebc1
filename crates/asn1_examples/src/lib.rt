//! The examples in the doc comments of the crates, printed by `scripts/print-examples`.
#![tactic(auto)]

#[cfg(test)]
mod alphabets_examples;
#[cfg(test)]
mod bits_examples;
#[cfg(test)]
mod builder_examples;
#[cfg(test)]
mod canonical_examples;
#[cfg(test)]
mod defaults_examples;
#[cfg(test)]
mod integer_examples;
#[cfg(test)]
mod json_examples;
#[cfg(test)]
mod number_examples;
#[cfg(test)]
mod oid_examples;
#[cfg(test)]
mod resolve_examples;
#[cfg(test)]
mod schema_values_examples;
#[cfg(test)]
mod strings_examples;
#[cfg(test)]
mod values_examples;
#[cfg(test)]
mod x690_decode_examples;
#[cfg(test)]
mod x690_elements_examples;
#[cfg(test)]
mod x690_encode_examples;
#[cfg(test)]
mod x691_decode_examples;
#[cfg(test)]
mod x691_encode_examples;
