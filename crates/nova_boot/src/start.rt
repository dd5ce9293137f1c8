ghost use Rattle.std.specs.Prelude.{◌≡◌, ◌≤◌, ◌+◌, ◌*◌, ◌^◌, length, map, IfOk, OnOk};
ghost use Rattle.std.specs.List.{AllByRecursion};
ghost use Rattle.nova_scenario.specs.Sound.{IsSourceOf};
ghost use Rattle.nova_model.specs.Boot.{boot, with_images};
ghost use Rattle.nova_model.specs.Sources.{with_sources};
ghost use Rattle.nova_boot.specs.Boot.{scenario_of, image_of, source_of, LieInRam};

use nova_kernel::{Kernel, Root, let_go};
use nova_scenario::{Image, Scenario, SourceRow};
use std::alloc::{AllocError, Global};

/// The root of `scenario`.
fn root_of(scenario: &Scenario) -> Root
    ensures { result ≡ (scenario_of scenario.now).root }
{
    Root {
        pc: scenario.pc,
        sp: scenario.sp,
        priority: scenario.priority,
        quantum: scenario.quantum,
    }
}

/// Lays `images` into the RAM of `kernel`, which has taken no turn.
fn lay(kernel: &mut Kernel, images: &[Image])
    requires turns { kernel.old.state.turns ≡ 0 }
    requires images { LieInRam (4096 * length kernel.old.state.memory.ram) images.now }
    ensures laid { kernel.new ≡ record kernel.old { state = with_images kernel.old.state (map image_of images.now) } }
    ensures turns { kernel.new.state.turns ≡ 0 }
    ensures cpus { kernel.new.state.cpus ≡ kernel.old.state.cpus }
    ensures objects { length kernel.new.state.objects ≡ length kernel.old.state.objects }
{
    for image in images {
        kernel.put(image.address, image.bytes.as_slice());
    }
}

/// Makes `sources` in `kernel`, which has taken no turn.
fn make(kernel: &mut Kernel, sources: &[SourceRow]) -> Result<(), AllocError>
    requires turns { kernel.old.state.turns ≡ 0 }
    requires sources { AllByRecursion (IsSourceOf kernel.old.state.cpus) sources.now }
    requires objects { length kernel.old.state.objects + length sources.now ≤ 2 ^ 20 }
    ensures { OnOk result (kernel.new ≡ record kernel.old { state = with_sources kernel.old.state (map source_of sources.now) }) }
{
    for source in sources {
        kernel.add_source(source.cpu, source.first, source.period, source.count)?;
    }
    Ok(())
}

/// Boots the kernel of `scenario`: the machine boots with its root domain, and then the images are laid into
/// RAM and the sources are made. The console log has room for `log_room` bytes.
///
/// The order of RAM is at most 14, the consoles are at most 16, the images lie in RAM, and there are at most 32 sources, with
/// numbers in their ranges.
pub fn boot(alloc: Global, scenario: &Scenario, log_room: u64) -> Result<Kernel, AllocError>
    requires ram { scenario.now.ram ≤ 14 }
    requires consoles { scenario.now.consoles ≤ 16 }
    requires images { LieInRam (4096 * 2 ^ scenario.now.ram) scenario.now.images }
    requires sources { AllByRecursion (IsSourceOf scenario.now.cpus) scenario.now.sources }
    requires few { length scenario.now.sources ≤ 32 }
    ensures { IfOk result (λ k. k ≡ record { state = boot (scenario_of scenario.now); room = log_room }) }
{
    let root = root_of(scenario);
    let mut kernel = Kernel::new(
        alloc,
        scenario.cpus,
        scenario.ram,
        scenario.consoles,
        root,
        log_room,
    )?;
    lay(&mut kernel, scenario.images.as_slice());
    match make(&mut kernel, scenario.sources.as_slice()) {
        Ok(()) => Ok(kernel),
        Err(failed) => {
            let_go(kernel);
            Err(failed)
        }
    }
}
