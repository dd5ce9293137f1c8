ghost use Rattle.std.specs.Prelude.{◌≡◌, ℕ, ◌+◌, ◌*◌, ◌^◌, ◌≤◌, List, length, false, Ok};
ghost use Rattle.std.specs.List.{AllByRecursion};
ghost use Rattle.nova_text.specs.Line.{lines};
ghost use Rattle.nova_model.specs.Boot.{laid, boot};
ghost use Rattle.nova_model.specs.Memory.{Memory};
ghost use Rattle.nova_frames.specs.Store.{AreWhole};
ghost use Rattle.nova_scenario.specs.Items.{items};
ghost use Rattle.nova_scenario.specs.Scenario.{scenario};
ghost use Rattle.nova_scenario.specs.Sound.{AreApart};
ghost use Rattle.nova_scenario.specs.declared.scenario.Scenario.{Scenario};
ghost use Rattle.nova_boot.specs.Boot.{scenario_of, LieInRam};
ghost use Rattle.nova_boot.specs.Laid.{IsLaid};
ghost use Rattle.nova_boot.specs.Lying.{HoldsImages, HoldsText, HoldsItem};

use nova_frames::laws::loads_give_what_was_stored;

/// Bytes that are laid into RAM from an address on lie there one after another, and every other byte
/// stays.
pub fn bytes_lie_where_they_are_laid()
    ensures { (m : Memory) (address : ℕ) (bytes : List ℕ) → AreWhole m.ram → address + length bytes ≤ 4096 * length m.ram
        → IsLaid m address bytes (laid m address bytes) }
{
    loads_give_what_was_stored();
}

/// After boot each byte of RAM is that of the image that has it there, and 0 where none has.
pub fn images_lie_in_memory()
    ensures { (s : Scenario) → LieInRam (4096 * 2 ^ s.ram) s.images → AreApart s.images
        → HoldsImages s.images (boot (scenario_of s)).memory }
{
    loads_give_what_was_stored();
}

/// After boot each byte of RAM is that of the block of words, or of the executable's segment, that has it there by the scenario's text, and else 0.
pub fn texts_lie_in_memory()
    ensures { (bytes : List ℕ) (s : Scenario) → scenario bytes ≡ Ok s
        → HoldsText bytes s.images (boot (scenario_of s)).memory }
{
    images_lie_in_memory();
}

/// After boot, of each executable of a scenario's text each segment's bytes lie in memory, and zeros after them.
pub fn executables_lie_in_memory()
    ensures { (bytes : List ℕ) (s : Scenario) → scenario bytes ≡ Ok s
        → AllByRecursion (HoldsItem (boot (scenario_of s)).memory) (items false (lines bytes)) }
{
    images_lie_in_memory();
}
