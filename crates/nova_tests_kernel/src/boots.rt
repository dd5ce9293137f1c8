// The kernel that a scenario begins with.
use nova_boot::boot;
use nova_kernel::Kernel;
use nova_scenario::{Bytes, Image, Images, Scenario, Sources};
use nova_tests_bursts::drops::let_go;
use std::alloc::Global;
use std::process::Abort;

/// How many processors, pages and consoles there are, and whether a derivation has the number 6 or more, and 7 or more.
fn told(kernel: &Kernel) -> ([u32; 3], [bool; 2]) {
    let sizes = [kernel.cpus(), kernel.ram(), kernel.consoles()];
    let derivations = [
        kernel.derivation_from(6).is_some(),
        kernel.derivation_from(7).is_some(),
    ];
    (sizes, derivations)
}

/// The kernel that a scenario with an image at page 1 begins with.
fn booted(rt: &impl Abort, alloc: Global) -> Kernel {
    let bytes = Vec::from_slice(alloc, &[0x73, 0, 0x10, 0]).expect(rt, "ample memory");
    let image = Image {
        address: 4096,
        bytes: Bytes::from(bytes),
    };
    let images = vec![in alloc; image].expect(rt, "ample memory");
    let scenario = Scenario {
        cpus: 2,
        ram: 1,
        consoles: 3,
        pc: 4096,
        sp: 8,
        priority: 1,
        quantum: 10,
        images: Images::from(images),
        sources: Sources::from(Vec::new(alloc)),
    };
    let kernel = boot(alloc, &scenario, 5).expect(rt, "ample memory");
    let_go(scenario);
    kernel
}

#[test]
fn a_scenario_boots(rt: HostRuntime) {
    let kernel = booted(&rt, rt.alloc());
    let (sizes, derivations) = told(&kernel);
    let_go(kernel);
    assert!(rt; sizes == [2, 2, 3] && derivations == [true, false]);
}
