//! Tests of what delegations rest on: ranges, objects, the index of a space, derivations, revokes,
//! delegations and translations; and of memory, that of the machine and that of a guest alone.
#![tactic(auto)]

#[cfg(test)]
mod chains;
#[cfg(test)]
mod delegations;
#[cfg(test)]
mod derivations;
#[cfg(test)]
mod guests;
#[cfg(test)]
mod machine_memory;
#[cfg(test)]
mod nested;
#[cfg(test)]
mod object_tables;
#[cfg(test)]
mod parts;
#[cfg(test)]
mod ranges;
#[cfg(test)]
mod revokes;
#[cfg(test)]
mod space_index;
#[cfg(test)]
mod translations;
