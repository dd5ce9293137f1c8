//! Tests of two guests compared.
#![tactic(auto)]

#[cfg(test)]
mod twins;
