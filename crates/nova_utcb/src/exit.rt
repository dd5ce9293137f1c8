ghost use Rattle.std.specs.Prelude.{◌≡◌, ◌≤◌};
ghost use Rattle.nova_utcb.specs.Messages.{filled, exited, groups_in, renewed, written_back};
ghost use Rattle.nova_utcb.specs.Groups.{with_group, with_registers};

use crate::utcb::Utcb;
use nova_range::{Flags, Mtd};
use rv_model::Regs;

/// `content`, a word of `group`, or 0 where `mtd` doesn't name the group.
fn filled(mtd: Mtd, group: Mtd, content: u32) -> u32
    ensures { result ≡ filled mtd group content }
{
    if mtd.contains(group) { content } else { 0 }
}

impl Utcb {
    /// Puts the message of an exit into the words, by the groups of `mtd`. Word 0 is 36, and words 4 to 39 are
    /// the descriptor, the qualifications `q0` and `q1`, pc and x0 to x31, in this order. Words of groups that
    /// the descriptor doesn't name become 0. All other words stay.
    #[tactic(auto, using(crate::proofs::Exits::exited_by_parts))]
    pub fn put_state(&mut self, mtd: Mtd, q0: u32, q1: u32, regs: &Regs)
        ensures { self.new ≡ exited mtd q0 q1 regs.now self.old }
    {
        self.set(0, 36);
        self.set(4, mtd.bits());
        self.set(5, filled(mtd, Mtd::QUAL, q0));
        self.set(6, filled(mtd, Mtd::QUAL, q1));
        self.set(7, filled(mtd, Mtd::PC, regs.pc()));
        self.set(8, 0);
        self.put_group(mtd, Mtd::LOW, 1, 16, regs);
        self.put_group(mtd, Mtd::HIGH, 16, 32, regs);
    }

    /// Puts registers `first` to `end - 1` into their words, which are a group's.
    #[tactic(auto, using(crate::proofs::Groups::no_words, crate::proofs::Groups::word_more))]
    fn put_group(&mut self, mtd: Mtd, group: Mtd, first: u32, end: u32, regs: &Regs)
        requires order { first ≤ end }
        requires within { end ≤ 32 }
        ensures { self.new ≡ with_group mtd group first end regs.now self.old }
    {
        for i in first..end {
            self.set(8 + i as usize, filled(mtd, group, regs.get(i)));
        }
    }

    /// Takes back into `regs` the groups that word 4 names, from the words where an exit's message has them.
    /// The groups are those of pc, of x1 to x15 and of x16 to x31. Other bits of word 4 don't matter, and the
    /// other registers stay.
    #[tactic(auto, using(crate::proofs::Exits::back_by_parts))]
    pub fn take_state(&self, regs: &mut Regs)
        ensures { regs.new ≡ written_back self.now regs.old }
    {
        self.take_pc(regs);
        self.take_group(Mtd::LOW, 1, 16, regs);
        self.take_group(Mtd::HIGH, 16, 32, regs);
    }

    /// The groups that word 4 names.
    fn groups(&self) -> Mtd
        ensures { result ≡ groups_in self.now }
    {
        Mtd::from_bits_retain(self.word(4))
    }

    /// Takes pc into `regs` from its word where its group is named.
    fn take_pc(&self, regs: &mut Regs)
        ensures { regs.new ≡ record regs.old { pc = renewed self.now Mtd.PC 7 regs.old.pc } }
    {
        if self.groups().contains(Mtd::PC) {
            regs.set_pc(self.word(7));
        }
    }

    /// Takes registers `first` to `end - 1`, which are a group's, from their words where the group is
    /// named.
    #[tactic(auto, using(crate::proofs::Groups::no_registers, crate::proofs::Groups::register_more, crate::proofs::Groups::unnamed))]
    fn take_group(&self, group: Mtd, first: u32, end: u32, regs: &mut Regs)
        requires start { 1 ≤ first }
        requires order { first ≤ end }
        requires within { end ≤ 32 }
        ensures { regs.new ≡ with_registers self.now group first end regs.old }
    {
        if self.groups().contains(group) {
            for i in first..end {
                regs.set(i, self.word(8 + i as usize));
            }
        }
    }
}
