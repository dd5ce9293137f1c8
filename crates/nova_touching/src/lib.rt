//! What turns of processors touch, so that some of them may change places.
#![tactic(auto)]

mod laws;
mod leading;
mod looking;
mod marks;
mod noted;
mod touch;
mod touching;
mod whom;

pub use laws::turns_of_the_kernel_swap;
pub use noted::Noted;
pub use touch::Touch;
pub use touching::touch_of;
