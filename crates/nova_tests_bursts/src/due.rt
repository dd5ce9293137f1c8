// Bursts, and what comes due on their processor.
ghost use Rattle.std.specs.Prelude.{◌≡◌, ◌+◌, ◌^◌, ◌≤◌};

use crate::commits::prepared_from;
use crate::drops::let_go;
use crate::scenarios::{LOOPS, joined, on_second};
use nova_burst::{commit, lease};
use nova_kernel::Kernel;
use std::alloc::Global;
use std::process::Abort;

/// What the guest executes: a loop.
const LOOP: &str = "image 0x1000 asm\naddi x10, x10, 1\njal x0, -4\nend\n";

/// The machine whose guest is about to loop, at a clock of 19 and with two turns left of the quantum. Its processor has a source with
/// this moment.
fn prepared(rt: &impl Abort, alloc: Global, moment: &str) -> Kernel
    ensures turns { result.state.turns ≤ 100 }
{
    let head = "ram 2\nconsoles 1\nroot 0 0 1 10\nsource 1 ";
    let root = joined(alloc, &[head, moment, " 1 1\nimage 0 asm\n"]).expect(rt, "ample memory");
    let text = on_second(alloc, root.as_str(), LOOPS, LOOP).expect(rt, "ample memory");
    let kernel = prepared_from(rt, alloc, text.as_str());
    let_go(root);
    let_go(text);
    kernel
}

/// A burst to its end: how many instructions it has; none where nothing is leased.
#[tactic(auto, using(crate::proofs::Stems::at_once))]
fn burst(rt: &impl Abort, alloc: Global, kernel: &mut Kernel) -> Option<u64>
    requires { kernel.old.state.turns ≤ 100 }
{
    let mut lent = lease(kernel, alloc, 1, 4).expect(rt, "ample memory")?;
    let ran = lent.run(4096);
    let _ = commit(kernel, lent, 5);
    Some(ran)
}

/// How many instructions a burst has before a source with this moment, and how many turns are left after it until something is due.
fn before(rt: &impl Abort, alloc: Global, moment: &str) -> (Option<u64>, Option<u64>) {
    let mut kernel = prepared(rt, alloc, moment);
    let ran = burst(rt, alloc, &mut kernel);
    let until_due = kernel.until_due(1);
    let_go(kernel);
    (ran, until_due)
}

#[test]
fn a_burst_ends_where_something_is_due(rt: HostRuntime) {
    let alloc = rt.alloc();
    let ends = [
        before(&rt, alloc, "19"),
        before(&rt, alloc, "20"),
        before(&rt, alloc, "30"),
    ];
    let wanted = [(None, Some(0)), (Some(1), Some(0)), (Some(2), Some(9))];
    assert!(&rt; ends == wanted);
}
