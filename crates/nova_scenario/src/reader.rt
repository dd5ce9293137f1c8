ghost use Rattle.std.specs.Prelude.{◌≡◌, ◌∷◌, ◌+◌, ◌≤◌, false, length, is_ok, IfOk, IfErr, OnOk};
ghost use Rattle.std.specs.List.{AllByRecursion, after_first};
ghost use Rattle.nova_text.specs.Line.{row_of, lines};
ghost use Rattle.nova_scenario.specs.Fault.{on_line};
ghost use Rattle.nova_scenario.specs.Images.{begun};
ghost use Rattle.nova_scenario.specs.Executables.{IsLaidItem};
ghost use Rattle.nova_scenario.specs.Origins.{IsOfSome, HaveWordsAlone};
ghost use Rattle.nova_scenario.specs.Items.{is_end, block, items};
ghost use Rattle.nova_scenario.specs.Read.{IsRead, BecomesAt, IsReadOn, KeepsMemoryApart, IsMemoryOnlyIf, TakesIf, TakesOn};
ghost use Rattle.nova_scenario.specs.Scenario.{with_bytes, with_block, scenario, takes_memory};
ghost use Rattle.nova_scenario.specs.Sound.{IsSound, IsAligned};
ghost use Rattle.nova_scenario.specs.declared.fault.Why.TheVariants.{Missing};

use crate::asm::asm_block;
use crate::draft::Draft;
use crate::elf::elf_block;
use crate::executable::add_executable;
use crate::fault::{ScenarioFault, Why};
use crate::image::Image;
use crate::scenario::Scenario;
use crate::statement::{Form, Head, Statement, said};
use crate::words::hex_block;
use nova_text::{Line, Lines};
use std::alloc::Global;

/// The fault of what is not there at the end of the text `bytes`: it is on the line after the last.
fn missing(bytes: &[u8]) -> ScenarioFault
    ensures { result ≡ ScenarioFault.At (length (lines bytes.now) + 1) Missing }
{
    let mut next = 1;
    for line in Lines::new(bytes) {
        next = line.number + 1;
    }
    Why::Missing.at(next)
}

/// Adds what a block of `form` lays from `address` on, where it ends at line `line`.
fn add_bytes(
    alloc: Global,
    draft: &mut Draft,
    form: Form,
    address: u32,
    bytes: Vec<u8>,
    line: u64,
) -> Result<(), ScenarioFault>
    ensures { BecomesAt (on_line line (with_bytes form draft.old address bytes.items)) draft.new result }
{
    match form {
        Form::Elf => add_executable(alloc, draft, address, &bytes, line),
        Form::Hex | Form::Asm => {
            let bytes = bytes.into();
            draft.add(Image { address, bytes }, line)
        }
    }
}

/// Adds the image that the line `head` begins, with the lines of its block.
fn read_image(
    alloc: Global,
    bytes: &[u8],
    draft: &mut Draft,
    first: Line,
    head: Head,
    lines: &mut Lines,
) -> Result<(), ScenarioFault>
    ensures memory { TakesIf (is_ok (begun draft.old.settings head.address)) result }
    ensures draft { BecomesAt (with_block bytes.now draft.old head (block (row_of first.entry) lines.old)) draft.new result }
    ensures lines { OnOk result (lines.new ≡ after_first is_end lines.old) }
{
    let address = draft
        .begin(head.address)
        .map_err(|why| why.at(first.number))?;
    let block = match head.form {
        Form::Hex => hex_block(alloc, lines)?,
        Form::Asm => asm_block(alloc, bytes, first, lines)?,
        Form::Elf => elf_block(alloc, lines)?,
    };
    match block.end {
        Some(end) => add_bytes(alloc, draft, head.form, address, block.bytes, end),
        None => Err(missing(bytes)),
    }
}

/// Adds what `line` says. Where it begins an image, the lines of its block are taken too.
fn read_item(
    alloc: Global,
    bytes: &[u8],
    draft: &mut Draft,
    line: Line,
    lines: &mut Lines,
) -> Result<(), ScenarioFault>
    ensures read { IsReadOn bytes.now draft.old (row_of line.entry ∷ lines.old) draft.new lines.new result }
    ensures memory { TakesOn draft.old (row_of line.entry ∷ lines.old) draft.new lines.new result }
    ensures fewer { OnOk result (length lines.new ≤ length lines.old) }
{
    match said(line) {
        Ok(None) => Ok(()),
        Ok(Some(Statement::Sets(setting))) => draft.set(setting).map_err(|why| why.at(line.number)),
        Ok(Some(Statement::Adds(head))) => draft.add_source(head, line.number),
        Ok(Some(Statement::Begins(head))) => {
            draft.close();
            read_image(alloc, bytes, draft, line, head, lines)
        }
        Err(why) => Err(why.at(line.number)),
    }
}

/// Reads `bytes` as a scenario.
///
/// `At` comes exactly where the text is none, and names the first line at fault with its first fault. What is missing at the end is
/// missing on the line after the last. `Memory` comes where memory is refused, and only where an image or a source stands before any
/// line at fault; it never stands within `At`.
#[tactic(auto, unfolding(crate::specs::Scenario::scenario, crate::specs::Scenario::takes_memory))]
pub fn read(alloc: Global, bytes: &[u8]) -> Result<Scenario, ScenarioFault>
    ensures exact { IsRead (scenario bytes.now) result }
    ensures sound { IfOk result IsSound }
    ensures executables { IfOk result (λ s. AllByRecursion (IsLaidItem s.images) (items false (lines bytes.now))) }
    ensures origins { IfOk result (λ s. AllByRecursion (IsOfSome bytes.now (items false (lines bytes.now))) s.images) }
    ensures aligned { IfOk result (λ s. HaveWordsAlone (items false (lines bytes.now)) → AllByRecursion IsAligned s.images) }
    ensures apart { IfErr result KeepsMemoryApart }
    ensures memory { IfErr result (IsMemoryOnlyIf (takes_memory bytes.now)) }
{
    let mut lines = Lines::new(bytes);
    let mut draft = Draft::new(alloc);
    while let Some(line) = lines.next() {
        read_item(alloc, bytes, &mut draft, line, &mut lines)?;
    }
    match draft.finish() {
        Some(scenario) => Ok(scenario),
        None => Err(missing(bytes)),
    }
}
