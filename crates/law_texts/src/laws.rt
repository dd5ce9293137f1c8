ghost use Rattle.std.specs.Prelude.{◌≡◌, ℕ, ◌≤◌, ◌++◌, false, length, List, Ok, Err};
ghost use Rattle.std.specs.List.{AllByRecursion};
ghost use Rattle.nova_text.specs.Line.{Row, lines};
ghost use Rattle.nova_model.specs.Boot.{boot};
ghost use Rattle.nova_scenario.specs.Fault.{At};
ghost use Rattle.nova_scenario.specs.Items.{items};
ghost use Rattle.nova_scenario.specs.Scenario.{scenario};
ghost use Rattle.nova_scenario.specs.declared.scenario.Scenario.{Scenario};
ghost use Rattle.nova_boot.specs.Boot.{scenario_of};
ghost use Rattle.law_texts.specs.Faults.{AreClosed};
ghost use Rattle.law_texts.specs.Settings.{AreTold};
ghost use Rattle.law_texts.specs.Sources.{AreAlarms, source_lines};
ghost use Rattle.law_texts.specs.Words.{HoldsItem};

use nova_boot::images_lie_in_memory;
use nova_gsi::{counters_tell_what_ended, sources_are_alarms};

/// After boot the words of each hex block of a scenario's text, and those that each asm block assembles to, lie one after another from the block's
/// address on. Of each word the lowest byte is first.
pub fn words_lie_at_their_address()
    ensures { (bytes : List ℕ) (s : Scenario) → scenario bytes ≡ Ok s
        → AllByRecursion (HoldsItem (boot (scenario_of s)).memory bytes) (items false (lines bytes)) }
{
    images_lie_in_memory();
}

/// Each line of a scenario's text that sets something says what the kernel begins with. That is its processors, its RAM, its consoles; of the root
/// its stack pointer, with all other registers 0, its priority and quantum; and its pc, or that this is the entry of the first executable. The lines
/// of sources are its alarms, in order: of each its processor, first moment, period and count, the semaphore of its place, and that it hasn't rung.
pub fn settings_are_what_boot_begins_with()
    ensures settings { (bytes : List ℕ) (s : Scenario) → scenario bytes ≡ Ok s → AreTold (boot (scenario_of s)) (items false (lines bytes)) }
    ensures sources { (bytes : List ℕ) (s : Scenario) → scenario bytes ≡ Ok s → AreAlarms (boot (scenario_of s)) (source_lines (items false (lines bytes))) }
{
    sources_are_alarms();
    counters_tell_what_ended();
}

/// A fault at a line of a text in which each block is closed is that of each text that begins with the same bytes and lines, whatever comes behind
/// them.
pub fn a_fault_of_closed_lines_stays()
    ensures { (bytes behind : List ℕ) (more : List Row) (f : At) → scenario bytes ≡ Err f → f.line ≤ length (lines bytes) → AreClosed (lines bytes) →
        lines (bytes ++ behind) ≡ lines bytes ++ more → scenario (bytes ++ behind) ≡ Err f }
{}
