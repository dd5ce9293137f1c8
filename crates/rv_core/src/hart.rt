ghost use Rattle.std.specs.Prelude.{◌≡◌, ◌<◌, ◌*◌, ◌%◌, ◌^◌, ◌⊎◌, Some};
ghost use Rattle.rv_model.specs.Table.{instr_from};
ghost use Rattle.rv_model.specs.Step.{next, sets, goes, jumps, branches, loads, stores};
ghost use Rattle.rv_model.specs.Codes.{instr_of};
ghost use Rattle.rv_model.specs.Step.{shift_right_signed, executed, decoded, one};
ghost use Rattle.rv_core.specs.Rows.{HasRegisters};
ghost use Rattle.rv_core.specs.Steps.{space_of, Follows, FollowsAlone, extension_of};

use crate::bus::Bus;
use crate::decoder;
use crate::outcome::{
    BREAKPOINT, ENVIRONMENT_CALL, FETCH_FAULT, ILLEGAL, LOAD_FAULT, MISALIGNED, Outcome,
    STORE_FAULT,
};
use crate::readings::{Reading, Readings};
use rv_model::{Mnemonic, Operands, Regs};

/// Goes on to the next instruction.
#[inline(always)]
fn go_on(regs: &mut Regs) -> Outcome
    ensures done { result ≡ Outcome.Next }
    ensures registers { regs.new ≡ next regs.old }
{
    regs.set_pc(regs.pc().wrapping_add(4));
    Outcome::Next
}

/// Goes on to the next instruction, with `value` in rd.
#[inline(always)]
fn set(regs: &mut Regs, rd: u32, value: u32) -> Outcome
    requires { rd < 32 }
    ensures { FollowsAlone (sets regs.old rd value) regs.old result regs.new }
{
    regs.set(rd, value);
    go_on(regs)
}

/// Goes to `target`, which must be a multiple of 4.
#[inline(always)]
fn go(regs: &mut Regs, target: u32) -> Outcome
    ensures { FollowsAlone (goes regs.old target) regs.old result regs.new }
{
    if target % 4 != 0 {
        return raise(MISALIGNED, target, 0);
    }
    regs.set_pc(target);
    Outcome::Next
}

/// Goes to `target`, which must be a multiple of 4, with the address of the next instruction in rd.
#[inline(always)]
fn jump(regs: &mut Regs, rd: u32, target: u32) -> Outcome
    requires { rd < 32 }
    ensures { FollowsAlone (jumps regs.old rd target) regs.old result regs.new }
{
    if target % 4 != 0 {
        return raise(MISALIGNED, target, 0);
    }
    let next = regs.pc().wrapping_add(4);
    regs.set(rd, next);
    regs.set_pc(target);
    Outcome::Next
}

/// Goes to pc + `offset` where `test` holds, else on.
#[inline(always)]
fn branch(regs: &mut Regs, test: bool, offset: u32) -> Outcome
    ensures { FollowsAlone (branches regs.old test offset) regs.old result regs.new }
{
    if test {
        let target = regs.pc().wrapping_add(offset);
        go(regs, target)
    } else {
        go_on(regs)
    }
}

#[inline(always)]
fn raise(reason: u32, q0: u32, q1: u32) -> Outcome
    ensures { result ≡ Outcome.Raise reason q0 q1 }
{
    Outcome::Raise { reason, q0, q1 }
}

/// How a number that was loaded becomes a word.
#[derive(Clone, Copy)]
enum Extension {
    Zero,
    Sign,
}

/// How a number that the instruction `mnemonic` loads becomes a word.
#[inline(always)]
fn extension_by(mnemonic: Mnemonic) -> Extension
    ensures sign { (mnemonic ≡ Mnemonic.Lb) ⊎ (mnemonic ≡ Mnemonic.Lh) → result ≡ Extension.Sign }
    ensures zero { (mnemonic ≡ Mnemonic.Lbu) ⊎ (mnemonic ≡ Mnemonic.Lhu) → result ≡ Extension.Zero }
{
    match mnemonic {
        Mnemonic::Lb | Mnemonic::Lh => Extension::Sign,
        _ => Extension::Zero,
    }
}

/// Loads a number of `width` bytes from `addr`, which must be aligned, into rd.
#[inline(always)]
fn load<B: Bus>(
    regs: &mut Regs,
    bus: &mut B,
    rd: u32,
    extension: Extension,
    width: u32,
    addr: u32,
) -> Outcome
    requires rd { rd < 32 }
    requires width { (width ≡ 1) ⊎ ((width ≡ 2) ⊎ (width ≡ 4)) }
    requires signed { extension ≡ Extension.Sign → width < 4 }
    ensures { let space = space_of B.fetched B.loaded B.takes (B.state bus.old) in
        let once = loads regs.old space rd (extension_of extension width) width addr in
        Follows B.stored once regs.old (B.state bus.old) result regs.new (B.state bus.new) }
{
    if addr % width != 0 {
        return raise(MISALIGNED, addr, 1);
    }
    let Some(number) = bus.load(addr, width) else {
        return raise(LOAD_FAULT, addr, width);
    };
    let value = match extension {
        Extension::Zero => number,
        Extension::Sign => decoder::extend(number, 8 * width),
    };
    set(regs, rd, value)
}

/// Stores the low `width` bytes of `value` to `addr`, which must be aligned.
#[inline(always)]
fn store<B: Bus>(regs: &mut Regs, bus: &mut B, width: u32, addr: u32, value: u32) -> Outcome
    requires width { (width ≡ 1) ⊎ ((width ≡ 2) ⊎ (width ≡ 4)) }
    requires room { B.room (B.state bus.old) }
    ensures { let space = space_of B.fetched B.loaded B.takes (B.state bus.old) in
        let once = stores regs.old space width addr value in
        Follows B.stored once regs.old (B.state bus.old) result regs.new (B.state bus.new) }
{
    if addr % width != 0 {
        return raise(MISALIGNED, addr, 2);
    }
    if bus.store(addr, width, low_bytes(value, width)) {
        go_on(regs)
    } else {
        raise(STORE_FAULT, addr, width)
    }
}

/// The number in the lowest `width` bytes of `value`.
#[inline(always)]
fn low_bytes(value: u32, width: u32) -> u32
    requires width { (width ≡ 1) ⊎ ((width ≡ 2) ⊎ (width ≡ 4)) }
    ensures low { result ≡ value % 2 ^ (8 * width) }
    ensures fits { result < 2 ^ (8 * width) }
{
    match width {
        1 => decoder::field_of(value, 0, 8),
        2 => decoder::field_of(value, 0, 16),
        _ => value,
    }
}

/// Executes the instruction `mnemonic` with `operands`.
#[inline(always)]
fn execute<B: Bus>(regs: &mut Regs, bus: &mut B, mnemonic: Mnemonic, operands: Operands) -> Outcome
    requires registers { HasRegisters operands }
    requires room { B.room (B.state bus.old) }
    ensures { let space = space_of B.fetched B.loaded B.takes (B.state bus.old) in
        let once = executed regs.old space (instr_from mnemonic operands) in
        Follows B.stored once regs.old (B.state bus.old) result regs.new (B.state bus.new) }
{
    let Operands { rd, rs1, rs2, imm } = operands;
    let left = regs.get(rs1);
    match mnemonic {
        Mnemonic::Lui => set(regs, rd, imm),
        Mnemonic::Auipc => {
            let pc = regs.pc();
            set(regs, rd, pc.wrapping_add(imm))
        }
        Mnemonic::Jal => {
            let pc = regs.pc();
            jump(regs, rd, pc.wrapping_add(imm))
        }
        Mnemonic::Jalr => {
            let addr = left.wrapping_add(imm);
            jump(regs, rd, addr & !1)
        }
        Mnemonic::Beq => {
            let right = regs.get(rs2);
            branch(regs, left == right, imm)
        }
        Mnemonic::Bne => {
            let right = regs.get(rs2);
            branch(regs, left != right, imm)
        }
        Mnemonic::Blt => {
            let right = regs.get(rs2);
            branch(regs, left.cast_signed() < right.cast_signed(), imm)
        }
        Mnemonic::Bge => {
            let right = regs.get(rs2);
            branch(regs, left.cast_signed() >= right.cast_signed(), imm)
        }
        Mnemonic::Bltu => {
            let right = regs.get(rs2);
            branch(regs, left < right, imm)
        }
        Mnemonic::Bgeu => {
            let right = regs.get(rs2);
            branch(regs, left >= right, imm)
        }
        Mnemonic::Lb | Mnemonic::Lbu => {
            let addr = left.wrapping_add(imm);
            load(regs, bus, rd, extension_by(mnemonic), 1, addr)
        }
        Mnemonic::Lh | Mnemonic::Lhu => {
            let addr = left.wrapping_add(imm);
            load(regs, bus, rd, extension_by(mnemonic), 2, addr)
        }
        Mnemonic::Lw => {
            let addr = left.wrapping_add(imm);
            load(regs, bus, rd, Extension::Zero, 4, addr)
        }
        Mnemonic::Sb => {
            let addr = left.wrapping_add(imm);
            let right = regs.get(rs2);
            store(regs, bus, 1, addr, right)
        }
        Mnemonic::Sh => {
            let addr = left.wrapping_add(imm);
            let right = regs.get(rs2);
            store(regs, bus, 2, addr, right)
        }
        Mnemonic::Sw => {
            let addr = left.wrapping_add(imm);
            let right = regs.get(rs2);
            store(regs, bus, 4, addr, right)
        }
        Mnemonic::Addi => set(regs, rd, left.wrapping_add(imm)),
        Mnemonic::Slti => set(regs, rd, u32::from(left.cast_signed() < imm.cast_signed())),
        Mnemonic::Sltiu => set(regs, rd, u32::from(left < imm)),
        Mnemonic::Xori => set(regs, rd, left ^ imm),
        Mnemonic::Ori => set(regs, rd, left | imm),
        Mnemonic::Andi => set(regs, rd, left & imm),
        Mnemonic::Slli => set(regs, rd, left << (imm % 32)),
        Mnemonic::Srli => set(regs, rd, left >> (imm % 32)),
        Mnemonic::Srai => set(regs, rd, shift_right_signed(left, imm)),
        Mnemonic::Add => {
            let right = regs.get(rs2);
            set(regs, rd, left.wrapping_add(right))
        }
        Mnemonic::Sub => {
            let right = regs.get(rs2);
            set(regs, rd, left.wrapping_sub(right))
        }
        Mnemonic::Sll => {
            let right = regs.get(rs2);
            set(regs, rd, left << (right % 32))
        }
        Mnemonic::Slt => {
            let right = regs.get(rs2);
            set(
                regs,
                rd,
                u32::from(left.cast_signed() < right.cast_signed()),
            )
        }
        Mnemonic::Sltu => {
            let right = regs.get(rs2);
            set(regs, rd, u32::from(left < right))
        }
        Mnemonic::Xor => {
            let right = regs.get(rs2);
            set(regs, rd, left ^ right)
        }
        Mnemonic::Srl => {
            let right = regs.get(rs2);
            set(regs, rd, left >> (right % 32))
        }
        Mnemonic::Sra => {
            let right = regs.get(rs2);
            set(regs, rd, shift_right_signed(left, right))
        }
        Mnemonic::Or => {
            let right = regs.get(rs2);
            set(regs, rd, left | right)
        }
        Mnemonic::And => {
            let right = regs.get(rs2);
            set(regs, rd, left & right)
        }
        Mnemonic::Fence => go_on(regs),
        Mnemonic::Ecall => raise(ENVIRONMENT_CALL, 0, 0),
        Mnemonic::Ebreak => raise(BREAKPOINT, 0, 0),
    }
}

/// `value` shifted to the right by the low five bits of `amount`, with copies of its sign.
#[inline(always)]
fn shift_right_signed(value: u32, amount: u32) -> u32
    ensures { result ≡ shift_right_signed value amount }
{
    (value.cast_signed() >> (amount % 32)).cast_unsigned()
}

/// Executes the instruction at the pc of `regs` over `bus`: the first raise that holds, which changes no
/// register and no memory, or the next registers and at most one store. (RV32I, chapter 2.)
#[tactic(auto, unfolding(rv_model::specs::Step::one))]
pub fn step<B: Bus>(regs: &mut Regs, bus: &mut B) -> Outcome
    requires { B.room (B.state bus.old) }
    ensures { let space = space_of B.fetched B.loaded B.takes (B.state bus.old) in
        let once = one regs.old space in
        Follows B.stored once regs.old (B.state bus.old) result regs.new (B.state bus.new) }
{
    let pc = regs.pc();
    if pc % 4 != 0 {
        return raise(MISALIGNED, pc, 0);
    }
    let Some(word) = bus.fetch(pc) else {
        return raise(FETCH_FAULT, pc, 0);
    };
    let Some((mnemonic, operands)) = decoder::parts(word) else {
        return raise(ILLEGAL, word, 0);
    };
    execute(regs, bus, mnemonic, operands)
}

/// Executes one instruction, as `step` does it, with `readings` in place of decoding its word anew. What words read as is remembered.
#[inline(always)]
#[tactic(auto, unfolding(rv_model::specs::Step::one))]
pub fn step_read<B: Bus>(regs: &mut Regs, bus: &mut B, readings: &mut Readings) -> Outcome
    requires { B.room (B.state bus.old) }
    ensures { let space = space_of B.fetched B.loaded B.takes (B.state bus.old) in
        let once = one regs.old space in
        Follows B.stored once regs.old (B.state bus.old) result regs.new (B.state bus.new) }
{
    let pc = regs.pc();
    if pc % 4 != 0 {
        return raise(MISALIGNED, pc, 0);
    }
    let Some(word) = bus.fetch(pc) else {
        return raise(FETCH_FAULT, pc, 0);
    };
    let Some(reading) = readings.read(word) else {
        return raise(ILLEGAL, word, 0);
    };
    execute(regs, bus, reading.mnemonic, reading.operands)
}

/// Executes one instruction, as `step` does it, whose word at pc was read before as `reading`.
#[inline(always)]
#[tactic(auto, unfolding(rv_model::specs::Step::one))]
pub fn step_known<B: Bus>(regs: &mut Regs, bus: &mut B, reading: Reading) -> Outcome
    requires room { B.room (B.state bus.old) }
    requires aligned { regs.old.pc % 4 ≡ 0 }
    requires there { B.fetched (B.state bus.old) regs.old.pc ≡ Some reading.word }
    ensures { let space = space_of B.fetched B.loaded B.takes (B.state bus.old) in
        let once = one regs.old space in
        Follows B.stored once regs.old (B.state bus.old) result regs.new (B.state bus.new) }
{
    execute(regs, bus, reading.mnemonic, reading.operands)
}
