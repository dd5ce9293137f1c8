ghost use Rattle.std.specs.Prelude.{◌≡◌, IfOk, nat_eq};
ghost use Rattle.std.specs.List.{ends_with};
ghost use Rattle.nova_example.specs.Said.{bytes_of, has_said};

use nova_kernel::{Kernel, LogByte};
use std::alloc::{AllocError, Global};

/// The bytes that the console `console` got, in order.
fn bytes_of(alloc: Global, log: &[LogByte], console: u32) -> Result<Vec<u8>, AllocError>
    ensures { IfOk result (λ bytes. bytes.items ≡ bytes_of console log.now) }
{
    let mut bytes = Vec::new(alloc);
    for byte in log {
        if byte.console == console {
            bytes.push(byte.value)?;
        }
    }
    Ok(bytes)
}

/// Whether the last bytes that `console` got are `word`.
pub fn has_said(
    alloc: Global,
    kernel: &Kernel,
    console: u32,
    word: &[u8],
) -> Result<bool, AllocError>
    ensures { IfOk result (λ said. said ≡ has_said kernel.now.state console word.now) }
{
    let bytes = bytes_of(alloc, kernel.log(), console)?;
    Ok(bytes.as_slice().ends_with(word))
}
