ghost use Rattle.std.specs.Prelude.{◌≡◌, ◌<◌, ◌≤◌, ◌++◌, IfOk, OnOk, string_bytes};
ghost use Rattle.nova_gen.specs.Generated.{settings, count_line, passes, revoke, generated};

use std::alloc::{AllocError, Global};

/// Writes the settings.
#[tactic(auto, unfolding(crate::specs::Generated::settings))]
fn write_settings(out: &mut String) -> Result<(), AllocError>
    ensures { OnOk result (string_bytes out.new ≡ string_bytes out.old ++ settings) }
{
    out.push_str("cpus 1\nram 1\nconsoles 0\nroot 0 0 1 10\nimage 0 asm\n")
}

/// Writes the line that says that `number` domains are made.
#[tactic(auto, unfolding(crate::specs::Generated::count_line))]
fn write_count(out: &mut String, number: u32) -> Result<(), AllocError>
    ensures { OnOk result (string_bytes out.new ≡ string_bytes out.old ++ count_line number) }
{
    writeln!(out, "li x8, {number}")
}

/// Writes the passes, in each of which a domain is made.
#[tactic(auto, unfolding(crate::specs::Generated::passes))]
fn write_passes(out: &mut String) -> Result<(), AllocError>
    ensures { OnOk result (string_bytes out.new ≡ string_bytes out.old ++ passes) }
{
    out.push_str(
        "addi x9, x0, 64\nloop:\naddi x17, x0, 2\naddi x10, x9, 0\naddi x12, x0, 5\necall\naddi x9, x9, 1\naddi x8, x8, -1\nbne x8, x0, loop\n",
    )
}

/// Writes the revoke, which takes back what was given.
#[tactic(auto, unfolding(crate::specs::Generated::revoke))]
fn write_revoke(out: &mut String) -> Result<(), AllocError>
    ensures { OnOk result (string_bytes out.new ≡ string_bytes out.old ++ revoke) }
{
    out.push_str("addi x17, x0, 7\naddi x10, x0, 1\necall\nebreak\nend\n")
}

/// The text of a scenario in which the root makes `number` domains, gives each a page to read, and then takes the page back from all. The number is
/// from 1 to 90,000.
pub fn generate(alloc: Global, number: u32) -> Result<Vec<u8>, AllocError>
    requires some { 0 < number }
    requires most { number ≤ 90000 }
    ensures { IfOk result (λ text. text.items ≡ generated number) }
{
    let mut out = String::new(alloc);
    write_settings(&mut out)?;
    write_count(&mut out, number)?;
    write_passes(&mut out)?;
    write_revoke(&mut out)?;
    Ok(out.into_bytes())
}
