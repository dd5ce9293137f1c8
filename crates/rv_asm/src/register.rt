ghost use Rattle.std.specs.Prelude.{◌≡◌, ◌<◌, IfSome};
ghost use Rattle.std.specs.List.{position};
ghost use Rattle.rv_asm.specs.Register.{is_of, number_in_table, number_named};

/// The names of x0 to x31, each by its number and by its use. (RISC-V calling convention, table of register names.)
const NAMES: [(&str, &str); 32] = [
    ("x0", "zero"),
    ("x1", "ra"),
    ("x2", "sp"),
    ("x3", "gp"),
    ("x4", "tp"),
    ("x5", "t0"),
    ("x6", "t1"),
    ("x7", "t2"),
    ("x8", "s0"),
    ("x9", "s1"),
    ("x10", "a0"),
    ("x11", "a1"),
    ("x12", "a2"),
    ("x13", "a3"),
    ("x14", "a4"),
    ("x15", "a5"),
    ("x16", "a6"),
    ("x17", "a7"),
    ("x18", "s2"),
    ("x19", "s3"),
    ("x20", "s4"),
    ("x21", "s5"),
    ("x22", "s6"),
    ("x23", "s7"),
    ("x24", "s8"),
    ("x25", "s9"),
    ("x26", "s10"),
    ("x27", "s11"),
    ("x28", "t3"),
    ("x29", "t4"),
    ("x30", "t5"),
    ("x31", "t6"),
];

/// The place of the first of `pairs` that has `name` on either side.
fn place_of(pairs: &[(&str, &str)], name: &[u8]) -> Option<usize>
    ensures { result ≡ position (λ pair. is_of name.now (pair.0.now, pair.1.now)) pairs.now }
{
    pairs.iter().position(|(number, usual)| number.as_bytes() == name || usual.as_bytes() == name)
}

/// The number of the register that has `name` in the table.
fn number_in_table(name: &[u8]) -> Option<usize>
    ensures named { result ≡ number_in_table name.now }
    ensures bound { IfSome result (λ number. number < 32) }
{
    place_of(&NAMES, name)
}

/// The number of the register `name`, or nothing where no register has it. `s0` is also `fp`.
pub fn number_named(name: &[u8]) -> Option<u32>
    ensures named { result ≡ number_named name.now }
    ensures bound { IfSome result (λ number. number < 32) }
{
    if name == b"fp".as_slice() {
        return Some(8);
    }
    match number_in_table(name) {
        Some(number) => Some(number as u32),
        None => None,
    }
}
