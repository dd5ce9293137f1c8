ghost use Rattle.std.specs.Prelude.{◌≡◌, ◌+◌, ◌-◌, ◌<◌, ◌≤◌, ◌^◌, ◌++◌, false, map, replicate, slice_range, IfOk};
ghost use Rattle.std.specs.List.{list_any};
ghost use Rattle.nova_elf.specs.Executable.{program};
ghost use Rattle.nova_scenario.specs.Fault.{on_line};
ghost use Rattle.nova_scenario.specs.Read.{Gives, BecomesAt};
ghost use Rattle.nova_scenario.specs.Segments.{segment_image, reaches_past, with_images, with_segments, with_executable, executable};
ghost use Rattle.nova_scenario.specs.Settings.{ram_size};

use crate::draft::Draft;
use crate::fault::{ScenarioFault, Why};
use crate::image::Image;
use crate::slices::between;
use nova_elf::{ElfFault, Program, Segment, read};
use std::alloc::{AllocError, Global};

/// The program of an executable whose block ends at line `line`.
fn program_of(alloc: Global, file: &[u8], line: u64) -> Result<Program, ScenarioFault>
    ensures { Gives (λ p. p) (on_line line (executable (program file.now))) result }
{
    match read(alloc, file) {
        Ok(program) => Ok(program),
        Err(ElfFault::Memory) => Err(ScenarioFault::Memory),
        Err(fault) => Err(Why::Elf(fault).at(line)),
    }
}

/// Whether `segment`, laid at `address`, reaches past RAM of `ram` bytes.
fn reaches_past(ram: u64, address: u32, segment: Segment) -> bool
    ensures { result ≡ reaches_past ram address segment }
{
    ram < u64::from(address) + u64::from(segment.address) + u64::from(segment.memory)
}

/// The bytes of `segment` of the executable `file`, and after them the zeros in the rest of its memory.
fn bytes_of(alloc: Global, file: &[u8], segment: Segment) -> Result<Vec<u8>, AllocError>
    ensures { IfOk result (λ bytes. bytes.items ≡ slice_range file.now segment.offset (segment.offset + segment.file) ++ replicate (segment.memory - segment.file) 0) }
{
    let start = u64::from(segment.offset);
    let laid = between(file, start, start + u64::from(segment.file));
    let mut bytes = Vec::from_slice(alloc, laid)?;
    let zeros = segment.memory.saturating_sub(segment.file) as usize;
    bytes.resize(bytes.len() + zeros, 0)?;
    Ok(bytes)
}

/// The image of `segment`, which lies from `address` on.
fn image_of(alloc: Global, address: u32, file: &[u8], segment: Segment) -> Result<Image, AllocError>
    requires { address + segment.address < 2 ^ 32 }
    ensures { IfOk result (λ image. image ≡ segment_image address file.now segment) }
{
    Ok(Image {
        address: address + segment.address,
        bytes: bytes_of(alloc, file, segment)?.into(),
    })
}

/// Adds the segments of an executable that lies from `address` on and ends at line `line`. None reaches past RAM.
fn add_segments(
    alloc: Global,
    draft: &mut Draft,
    address: u32,
    file: &[u8],
    segments: &[Segment],
    line: u64,
) -> Result<(), ScenarioFault>
    requires within { list_any (reaches_past (ram_size draft.old.settings) address) segments.now ≡ false }
    requires small { ram_size draft.old.settings ≤ 2 ^ 26 }
    ensures { BecomesAt (on_line line (with_images draft.old (map (segment_image address file.now) segments.now))) draft.new result }
{
    for segment in segments {
        let image = image_of(alloc, address, file, *segment)?;
        draft.add_apart(image, line)?;
    }
    Ok(())
}

/// Whether some of `segments` reaches past RAM of `ram` bytes.
fn some_reaches_past(ram: u64, address: u32, segments: &[Segment]) -> bool
    ensures { result ≡ list_any (reaches_past ram address) segments.now }
{
    segments
        .iter()
        .any(|segment| reaches_past(ram, address, *segment))
}

/// Adds `segments` as `add_segments` does, where some may reach past RAM.
fn add_if_within(
    alloc: Global,
    draft: &mut Draft,
    address: u32,
    file: &[u8],
    segments: &[Segment],
    line: u64,
) -> Result<(), ScenarioFault>
    ensures { BecomesAt (on_line line (with_segments address file.now segments.now draft.old)) draft.new result }
{
    if some_reaches_past(draft.ram_size(), address, segments) {
        return Err(Why::Range.at(line));
    }
    add_segments(alloc, draft, address, file, segments, line)
}

/// Adds the executable `file`, which lies from `address` on and ends at line `line`, to `draft`.
pub fn add_executable(
    alloc: Global,
    draft: &mut Draft,
    address: u32,
    file: &[u8],
    line: u64,
) -> Result<(), ScenarioFault>
    ensures { BecomesAt (on_line line (with_executable draft.old address file.now)) draft.new result }
{
    let program = program_of(alloc, file, line)?;
    let entry = u64::from(address) + u64::from(program.entry);
    draft.enter(entry).map_err(|why| why.at(line))?;
    let segments = program.segments.as_slice();
    add_if_within(alloc, draft, address, file, segments, line)
}
