// Scenarios in which a monitor serves a guest.
use nova_tests_bursts::scenarios::{
    MAKES_DOMAIN, MAKES_GUEST, MAKES_MONITOR, MONITOR, PAGE, ROOT, joined, on_second,
};
use std::alloc::{AllocError, Global};

/// A guest and its monitor on a single processor. The guest is told where it begins, is given a page, has a byte written and ends.
pub fn served(alloc: Global) -> Result<String, AllocError> {
    joined(
        alloc,
        &[
            "cpus 1\n",
            ROOT,
            MAKES_MONITOR,
            MAKES_DOMAIN,
            "addi x12, x0, 512\n",
            MAKES_GUEST,
            "ebreak\nend\n",
            MONITOR,
            PAGE,
        ],
    )
}

/// A root thread at pc 0x400, and the head of what it executes.
const BUSY_ROOT: &str = "\
ram 2
consoles 1
root 0x400 0 1 10
image 0x400 asm
";

/// What the root goes on with, which is nothing to the guest but for a store to its page at last.
const BUSY_REST: &str = "\
# a handler, and another thread of more priority, which makes the root wait and helps the handler
addi x17, x0, 3
addi x10, x0, 40
addi x11, x0, 0
addi x12, x0, 0
addi x14, x0, 96
ecall
addi x17, x0, 5
addi x10, x0, 80
addi x12, x0, 40
addi x13, x0, 0
addi x14, x0, 0x200
ecall
addi x10, x0, 41
addi x14, x0, 0x240
ecall
addi x17, x0, 6
addi x10, x0, 42
addi x12, x0, 0
ecall
addi x17, x0, 3
addi x10, x0, 43
addi x12, x0, 256
addi x14, x0, 80
ecall
addi x17, x0, 4
addi x10, x0, 44
addi x12, x0, 43
addi x13, x0, 1794
ecall
addi x17, x0, 0
addi x10, x0, 41
ecall
# a domain is given a page, which is stored to and revoked
addi x17, x0, 2
addi x10, x0, 45
addi x11, x0, 0
lui x12, 2
addi x12, x12, 29
ecall
lui x5, 2
sw x17, 0(x5)
addi x17, x0, 7
addi x10, x12, 0
ecall
# and last a store to the page that the guest has by then
lui x5, 1
addi x6, x0, 7
sw x6, 32(x5)
loop: jal x0, loop
";

/// A handler and a thread of the root's domain, and the guest.
const BUSY_IMAGES: &str = "\
# the handler and the other thread
image 0x200 asm
lui x5, 0xfffff
addi x6, x0, 2
sw x6, 16(x5)
addi x6, x0, 0x280
sw x6, 28(x5)
addi x17, x0, 1
ecall
end
image 0x240 asm
addi x17, x0, 12
addi x10, x0, 42
addi x11, x0, 0
ecall
addi x17, x0, 1
ecall
end
image 0x280 asm
addi x17, x0, 12
addi x10, x0, 42
addi x11, x0, 1
ecall
addi x17, x0, 0
addi x10, x0, 41
addi x11, x0, 0
ecall
ebreak
end
# the guest
image 0x1000 asm
addi x10, x0, 65
ecall
lw x11, 32(x0)
addi x10, x10, 1
ebreak
end
";

/// A guest and its monitor on a second processor, where the guest loads a word of its page. The root goes on with what is
/// nothing to them, and stores to the guest's page at last.
pub fn busy(alloc: Global) -> Result<String, AllocError> {
    on_second(alloc, BUSY_ROOT, BUSY_REST, BUSY_IMAGES)
}
