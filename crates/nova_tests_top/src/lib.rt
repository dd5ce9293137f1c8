//! Tests of the top call over a depot and a sink in memory: whole texts, byte for byte.
#![tactic(auto)]

#[cfg(test)]
mod bursts;
#[cfg(test)]
mod bytes;
#[cfg(test)]
mod calls;
#[cfg(test)]
mod commands;
#[cfg(test)]
mod exits;
#[cfg(test)]
mod objects;
#[cfg(test)]
mod orders;
#[cfg(test)]
mod refusals;
#[cfg(test)]
mod revokes;
#[cfg(test)]
mod rows;
#[cfg(test)]
mod runs;
#[cfg(test)]
mod scheduling;
#[cfg(test)]
mod semaphores;
#[cfg(test)]
mod sources;
#[cfg(test)]
mod times;
#[cfg(test)]
mod twins;
#[cfg(test)]
mod virtual_cpus;
#[cfg(test)]
mod writes;
