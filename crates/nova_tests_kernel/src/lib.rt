//! Tests of the kernel, of its boot from a scenario, of its runs by one thread and by several, and of its reports.
#![tactic(auto)]

#[cfg(test)]
mod apart;
#[cfg(test)]
mod boots;
#[cfg(test)]
mod crowds;
#[cfg(test)]
mod guests;
#[cfg(test)]
mod inputs;
#[cfg(test)]
mod machines;
#[cfg(test)]
mod orders;
#[cfg(test)]
mod reports;
#[cfg(test)]
mod runs;
#[cfg(test)]
mod scenarios;
#[cfg(test)]
mod sources;
#[cfg(test)]
mod workers;
