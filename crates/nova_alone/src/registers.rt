ghost use Rattle.std.specs.Prelude.{◌≡◌};
ghost use Rattle.nova_guest.specs.Alone.{with_high, with_low, with_pc, written_back};
ghost use Rattle.nova_range.specs.Mtds.{names};

use bitflags::Flags;
use nova_range::Mtd;
use rv_model::Regs;

/// Writes pc from its word in `words` where `mtd` names its group.
fn write_pc(regs: &mut Regs, mtd: Mtd, words: &[u32; 33])
    ensures { regs.new ≡ with_pc (names mtd Mtd.PC) words.now regs.old }
{
    if mtd.contains(Mtd::PC) {
        regs.set_pc(words[0]);
    }
}

/// Writes x1 to x15 from their `words` where `mtd` names their group.
fn write_low(regs: &mut Regs, mtd: Mtd, words: &[u32; 33])
    ensures { regs.new ≡ with_low (names mtd Mtd.LOW) words.now regs.old }
{
    if mtd.contains(Mtd::LOW) {
        regs.put(1, &words[2..17]);
    }
}

/// Writes x16 to x31 from their `words` where `mtd` names their group.
fn write_high(regs: &mut Regs, mtd: Mtd, words: &[u32; 33])
    ensures { regs.new ≡ with_high (names mtd Mtd.HIGH) words.now regs.old }
{
    if mtd.contains(Mtd::HIGH) {
        regs.put(16, &words[17..33]);
    }
}

/// Writes the groups of registers that `mtd` names from their `words`. The others stay.
pub(crate) fn write_back(regs: &mut Regs, mtd: Mtd, words: &[u32; 33])
    ensures { regs.new ≡ written_back mtd words.now regs.old }
{
    write_pc(regs, mtd, words);
    write_low(regs, mtd, words);
    write_high(regs, mtd, words);
}
