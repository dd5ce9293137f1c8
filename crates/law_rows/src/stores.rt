ghost use Rattle.std.specs.Prelude.{◌≡◌, ◌⊎◌, ℕ, ◌+◌, ◌-◌, ◌%◌, ◌^◌, ◌<◌, ◌≤◌, List, [], ◌∷◌, ◌++◌, length, Some};
ghost use mathlib.Core.List.{IsPrefix};
ghost use Rattle.rv_model.specs.Registers.{Registers};
ghost use Rattle.rv_model.specs.Step.{Store, Went};
ghost use Rattle.nova_frames.specs.Store.{AreWhole};
ghost use Rattle.nova_model.specs.AddressSpaces.{frame_for};
ghost use Rattle.nova_model.specs.Deeds.{address_space, done, instruction};
ghost use Rattle.nova_model.specs.Memory.{read};
ghost use Rattle.nova_model.specs.Runs.{after, run};
ghost use Rattle.nova_model.specs.State.{KernelState};
ghost use Rattle.nova_model.specs.declared.deed.Deed.TheVariants.{Steps};
ghost use Rattle.nova_model.specs.declared.log.LogByte.{LogByte};
ghost use Rattle.nova_range.specs.Rights.{write_right};

use nova_frames::laws::loads_give_what_was_stored;

/// An instruction's store to a frame of RAM, whichever context executes it: what is loaded there then is the stored value's lowest bytes. A store to
/// a console enters its low byte at the log's end, at the console's first address alone.
pub fn stores_are_done()
    ensures ram { (k : KernelState) (ec frame : ℕ) (regs : Registers) (s : Store) → instruction k ec ≡ Went regs (Some s) →
        frame_for (address_space k ec) write_right s.address ≡ Some frame → AreWhole k.memory.ram → frame < length k.memory.ram → s.address % 4096 + s.width ≤ 4096 →
        read (done k ec Steps).memory frame (s.address % 4096) s.width ≡ s.value % 256 ^ s.width }
    ensures console { (k : KernelState) (ec frame : ℕ) (regs : Registers) (s : Store) → instruction k ec ≡ Went regs (Some s) →
        frame_for (address_space k ec) write_right s.address ≡ Some frame → length k.memory.ram ≤ frame → s.address % 4096 ≡ 0 →
        (done k ec Steps).memory.log ≡ k.memory.log ++ record { console = frame - length k.memory.ram; value = s.value % 256 } ∷ [] }
    ensures elsewhere { (k : KernelState) (ec frame : ℕ) (regs : Registers) (s : Store) → instruction k ec ≡ Went regs (Some s) →
        frame_for (address_space k ec) write_right s.address ≡ Some frame → length k.memory.ram ≤ frame → 0 < s.address % 4096 →
        (done k ec Steps).memory ≡ k.memory }
{
    loads_give_what_was_stored();
}

/// What consoles got stays: a turn leaves it, or enters one byte behind it. So from any state on, whatever turns follow, the bytes that were stored to
/// consoles before are the first of those that were stored after, in the same order.
pub fn what_consoles_got_stays()
    ensures turn { (k : KernelState) (cpu : ℕ) →
        ((after k cpu).memory.log ≡ k.memory.log) ⊎ ((b : LogByte) × ((after k cpu).memory.log ≡ k.memory.log ++ b ∷ [])) }
    ensures run { (k : KernelState) (turns : List ℕ) → IsPrefix k.memory.log (run k turns).memory.log }
{}
