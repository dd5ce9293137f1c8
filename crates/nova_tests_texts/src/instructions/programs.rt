use super::memory::FlatMemory;
use super::{Line, instr_of};
use rv_core::outcome::{
    BREAKPOINT, ENVIRONMENT_CALL, FETCH_FAULT, ILLEGAL, LOAD_FAULT, MISALIGNED, STORE_FAULT,
};
use rv_core::{Outcome, Regs, encode, step};
use std::process::Abort;

/// A program from an address on, and what it comes to: the raise at its end (reason, q0, q1), pc, and the registers that aren't 0.
#[derive(Clone, Copy)]
struct Row<'a> {
    shows: &'static str,
    start: u32,
    program: &'a [Line],
    raise: (u32, u32, u32),
    pc: u32,
    registers: &'a [(u32, u32)],
}

/// Programs of the operations.
static OPERATIONS: [Row<'static>; 4] = [
    Row {
        shows: "sums wrap, and shifts keep the sign",
        start: 0,
        program: &[
            ("lui", [5, 0, 0], 0x8000_0000),
            ("addi", [6, 5, 0], -1),
            ("addi", [7, 6, 0], 1),
            ("sltiu", [8, 6, 0], -1),
            ("addi", [9, 0, 0], 33),
            ("sra", [11, 5, 9], 0),
            ("addi", [0, 5, 0], 5),
            ("ebreak", [0, 0, 0], 0),
        ],
        raise: (BREAKPOINT, 0, 0),
        pc: 28,
        registers: &[
            (5, 0x8000_0000),
            (6, 0x7fff_ffff),
            (7, 0x8000_0000),
            (8, 1),
            (9, 33),
            (11, 0xc000_0000),
        ],
    },
    Row {
        shows: "a jump clears bit 0, and a branch off the words raises",
        start: 0,
        program: &[
            ("addi", [5, 0, 0], 13),
            ("jalr", [1, 5, 0], 0),
            ("ebreak", [0, 0, 0], 0),
            ("addi", [6, 0, 0], 1),
            ("beq", [0, 0, 0], 6),
        ],
        raise: (MISALIGNED, 22, 0),
        pc: 16,
        registers: &[(1, 8), (5, 13), (6, 1)],
    },
    Row {
        shows: "a jump reads its register before it writes it",
        start: 0,
        program: &[
            ("addi", [5, 0, 0], 16),
            ("jalr", [5, 5, 0], 0),
            ("ecall", [0, 0, 0], 0),
            ("ecall", [0, 0, 0], 0),
            ("ebreak", [0, 0, 0], 0),
        ],
        raise: (BREAKPOINT, 0, 0),
        pc: 16,
        registers: &[(5, 8)],
    },
    Row {
        shows: "loads extend, and stores put low bytes",
        start: 0,
        program: &[
            ("lui", [6, 0, 0], 0x8081_8000),
            ("addi", [6, 6, 0], 0x283),
            ("sw", [0, 0, 6], 256),
            ("lb", [7, 0, 0], 256),
            ("lbu", [8, 0, 0], 256),
            ("lh", [9, 0, 0], 256),
            ("lhu", [10, 0, 0], 256),
            ("lb", [11, 0, 0], 259),
            ("sb", [0, 0, 6], 260),
            ("sh", [0, 0, 6], 262),
            ("lw", [12, 0, 0], 260),
            ("ecall", [0, 0, 0], 0),
        ],
        raise: (ENVIRONMENT_CALL, 0, 0),
        pc: 44,
        registers: &[
            (6, 0x8081_8283),
            (7, 0xffff_ff83),
            (8, 0x83),
            (9, 0xffff_8283),
            (10, 0x8283),
            (11, 0xffff_ff80),
            (12, 0x8283_0083),
        ],
    },
];

/// Programs whose fetches fail, or follow a store.
static FETCHES: [Row<'static>; 3] = [
    Row {
        shows: "a fetch needs a word that may be executed",
        start: 0,
        program: &[("jal", [0, 0, 0], 256)],
        raise: (FETCH_FAULT, 256, 0),
        pc: 256,
        registers: &[],
    },
    Row {
        shows: "a fetch needs an address of words",
        start: 2,
        program: &[],
        raise: (MISALIGNED, 2, 0),
        pc: 2,
        registers: &[],
    },
    Row {
        shows: "an instruction that was overwritten is fetched anew",
        start: 128,
        program: &[
            ("addi", [5, 0, 0], -1),
            ("sw", [0, 0, 5], 136),
            ("ebreak", [0, 0, 0], 0),
        ],
        raise: (ILLEGAL, 0xffff_ffff, 0),
        pc: 136,
        registers: &[(5, 0xffff_ffff)],
    },
];

/// Instructions that raise where x5 is 512, with their raises.
static RAISES: [(Line, (u32, u32, u32)); 7] = [
    (("lw", [5, 5, 0], -2), (MISALIGNED, 510, 1)),
    (("lw", [5, 5, 0], 0), (LOAD_FAULT, 512, 4)),
    (("lbu", [5, 5, 0], 1), (LOAD_FAULT, 513, 1)),
    (("sh", [0, 5, 5], -1), (MISALIGNED, 511, 2)),
    (("sh", [0, 5, 5], 0), (STORE_FAULT, 512, 2)),
    (("sw", [0, 0, 5], 124), (STORE_FAULT, 124, 4)),
    (("jal", [5, 0, 0], 2), (MISALIGNED, 6, 0)),
];

/// Memory with a program from an address on.
fn memory_with(rt: &impl Abort, at: u32, program: &[Line]) -> FlatMemory {
    let at = at as usize;
    assert!(rt; at < 256 && program.len() < 64);
    let mut memory = FlatMemory { bytes: [0; 512] };
    for (i, line) in program.iter().enumerate() {
        memory.place(at + 4 * i, encode(&instr_of(rt, *line)));
    }
    memory
}

/// Steps until a raise, at most 100 times.
fn run(regs: &mut Regs, memory: &mut FlatMemory) -> Outcome {
    for _ in 0..100 {
        let outcome = step(regs, memory);
        if outcome != Outcome::Next {
            return outcome;
        }
    }
    Outcome::Next
}

/// The registers x0 to x31.
fn registers_of(regs: &Regs) -> [u32; 32] {
    let mut all = [0; 32];
    for i in 0..32 {
        all[i] = regs.get(i as u32);
    }
    all
}

/// Registers x0 to x31 of which all but some are 0.
fn registers_with(some: &[(u32, u32)]) -> [u32; 32] {
    let mut all = [0; 32];
    for (i, value) in some {
        if let Some(register) = all.get_mut(*i as usize) {
            *register = *value;
        }
    }
    all
}

/// Runs a program, and asserts what it comes to.
fn assert_run(rt: &impl Abort, row: &Row) {
    let mut regs = Regs::new(row.start, 0);
    let mut memory = memory_with(rt, row.start, row.program);
    let end = run(&mut regs, &mut memory);
    let (reason, q0, q1) = row.raise;
    let registers = registers_with(row.registers);
    let shows = row.shows;
    assert!(rt; end == Outcome::Raise { reason, q0, q1 }, "{shows}");
    assert!(rt; regs.pc() == row.pc, "{shows}");
    assert!(rt; registers_of(&regs) == registers, "{shows}");
}

#[test]
fn operations_end_in_their_registers(rt: HostRuntime) {
    for row in &OPERATIONS {
        assert_run(&rt, row);
    }
}

#[test]
fn fetches_need_a_word_that_may_be_executed(rt: HostRuntime) {
    for row in &FETCHES {
        assert_run(&rt, row);
    }
}

#[test]
fn a_raise_leaves_the_registers(rt: HostRuntime) {
    for &(line, raise) in &RAISES {
        let (name, _, _) = line;
        let row = Row {
            shows: name,
            start: 0,
            program: &[("addi", [5, 0, 0], 512), line],
            raise,
            pc: 4,
            registers: &[(5, 512)],
        };
        assert_run(&rt, &row);
    }
}
