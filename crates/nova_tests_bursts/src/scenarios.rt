// Scenarios with a guest and its monitor, told in parts: what the root executes, and the images of the monitor and of the guest.
use std::alloc::{AllocError, Global};

/// The number of the guest.
pub const GUEST: u32 = 8;

/// A machine but for its processors, with a root thread at pc 0, and the head of what that executes.
pub const ROOT: &str = "\
ram 2
consoles 1
root 0 0 1 10
image 0 asm
";

/// The root begins to make the monitor, a local thread; x12 is to be its processor.
pub const MAKES_MONITOR: &str = "\
addi x17, x0, 3
addi x10, x0, 32
addi x14, x0, 48
";

/// It ends that, makes the monitor's portals and a domain to which it gives them, and begins to make the guest there.
pub const MAKES_DOMAIN: &str = "\
ecall
addi x17, x0, 5
addi x10, x0, 64
addi x12, x0, 32
addi x14, x0, 0x100
ecall
addi x10, x0, 66
addi x14, x0, 0x140
ecall
addi x10, x0, 70
addi x13, x0, 6
addi x14, x0, 0x180
ecall
addi x17, x0, 2
addi x10, x0, 33
lui x12, 0x40
addi x12, x12, 531
ecall
addi x17, x0, 3
addi x10, x0, 34
addi x11, x0, 33
";

/// It ends that, and makes the guest's scheduling context; x12 has named the guest's kind and processor.
pub const MAKES_GUEST: &str = "\
addi x13, x0, 0
addi x14, x0, 64
ecall
addi x17, x0, 4
addi x10, x0, 35
addi x12, x0, 34
addi x13, x0, 1794
ecall
";

/// What the monitor executes: it says where the guest begins, gives it the page of frame 1, has a byte written and lets it end.
pub const MONITOR: &str = "\
# the monitor, at startup: it says where the guest begins
image 0x100 asm
lui x5, 0xfffff
addi x6, x0, 2
sw x6, 16(x5)
addi x17, x0, 1
ecall
end
# at a fetch fault: it gives the guest the page of frame 1
image 0x140 asm
lui x6, 16
sw x6, 0(x5)
lui x6, 1
addi x6, x6, 29
sw x6, 504(x5)
addi x6, x0, 1
sw x6, 508(x5)
ecall
end
# at an ecall: it writes the guest's byte to the console
image 0x180 asm
lui x7, 4
lw x6, 72(x5)
sb x6, 0(x7)
lw x6, 28(x5)
addi x6, x6, 4
sw x6, 28(x5)
addi x6, x0, 2
sw x6, 16(x5)
ecall
end
";

/// What the guest executes.
pub const PAGE: &str = "\
# the guest's page
image 0x1000 asm
addi x10, x0, 65
ecall
addi x10, x10, 1
ebreak
end
";

/// A root that has nothing more to do loops.
pub const LOOPS: &str = "jal x0, 0\n";

/// The text of `parts`, one after another.
pub fn joined(alloc: Global, parts: &[&str]) -> Result<String, AllocError> {
    let mut text = String::new(alloc);
    for &part in parts {
        text.push_str(part)?;
    }
    Ok(text)
}

/// A machine of two processors, whose root makes the guest and its monitor on the second in 38 turns and goes on with `rest`. Beside the
/// monitor's images it has those in `images`, the guest's among them.
pub fn on_second(
    alloc: Global,
    root: &str,
    rest: &str,
    images: &str,
) -> Result<String, AllocError> {
    joined(
        alloc,
        &[
            "cpus 2\n",
            root,
            MAKES_MONITOR,
            "addi x12, x0, 1\n",
            MAKES_DOMAIN,
            "addi x12, x0, 513\n",
            MAKES_GUEST,
            rest,
            "end\n",
            MONITOR,
            images,
        ],
    )
}

/// A machine as `on_second` makes it, with a root thread at pc 0 and the guest's page alone.
pub fn apart(alloc: Global, rest: &str) -> Result<String, AllocError> {
    on_second(alloc, ROOT, rest, PAGE)
}
