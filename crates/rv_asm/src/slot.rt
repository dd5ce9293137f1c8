/// Where an operand of an instruction goes, and with it the form of its text.
#[derive(Clone, Copy)]
pub enum Slot {
    /// The register that is written.
    Rd,

    /// The first register that is read.
    Rs1,

    /// The second register that is read.
    Rs2,

    /// A number from `-low` to `high`, where a sign may stand in front unless `low` is 0.
    Number { low: u32, high: u32 },

    /// The upper 20 bits of a word, as a number.
    Upper,

    /// A number from -2048 to 2047 and rs1 in brackets, as in `-4(x2)`.
    Address,

    /// A label, or an even offset in bytes from `-low` to `high` from the instruction's own address.
    Target { low: u32, high: u32 },
}
