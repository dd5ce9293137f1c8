//! Tests of the crates that read and write bytes: instructions and the assembler, texts, orders, scenarios, executables, files, the
//! command line, benches and hypercalls.
#![tactic(auto)]

#[cfg(test)]
mod assembler;
#[cfg(test)]
mod benches;
#[cfg(test)]
mod calls;
#[cfg(test)]
mod commands;
#[cfg(test)]
mod executables;
#[cfg(test)]
mod files;
#[cfg(test)]
mod instructions;
#[cfg(test)]
mod orders;
#[cfg(test)]
mod scenarios;
#[cfg(test)]
mod texts;
