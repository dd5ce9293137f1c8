mod in_memory;
mod of_the_runtime;
mod to_standard_output;
