use crate::image::Images;
use crate::source::Sources;

/// A machine, its first thread, and what lies in its memory at the start.
#[derive(Debug, Drop)]
pub struct Scenario {
    /// How many processors there are, from 1 to 8.
    pub cpus: u32,

    /// RAM has 2 to the power of this frames of 4,096 bytes, from 0 to 14.
    pub ram: u8,

    /// How many consoles there are, from 0 to 16.
    pub consoles: u32,

    /// The address of the first thread's first instruction, a multiple of 4.
    pub pc: u32,

    /// What is in the first thread's stack pointer, x2, at the start.
    pub sp: u32,

    /// The priority of the first thread's scheduling context.
    pub priority: u8,

    /// The turns of a quantum of that scheduling context, from 1 to 16,777,215.
    pub quantum: u32,

    /// The images. Each lies in RAM, and no two share a byte.
    pub images: Images,

    /// The sources, at most 32.
    pub sources: Sources,
}
