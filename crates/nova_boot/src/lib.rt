//! From a scenario to the kernel that it begins with.
#![tactic(auto)]

mod laws;
mod start;

pub use laws::{
    bytes_lie_where_they_are_laid, executables_lie_in_memory, images_lie_in_memory,
    texts_lie_in_memory,
};
pub use start::boot;
