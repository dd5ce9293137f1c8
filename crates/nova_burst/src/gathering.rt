ghost use Rattle.std.specs.Prelude.{◌≡◌, ◌≤◌, ◌<◌, ◌/◌, IfOk, IfSome, OnOk, None, Some, length, nat_le};
ghost use Rattle.nova_model.specs.Delegations.{reach};
ghost use Rattle.law_leases.specs.Leases.{copy_at};
ghost use Rattle.nova_burst.specs.Copies.{known_in, place_of};
ghost use Rattle.nova_burst.specs.Gathered.{AreGathered, HasCopy, HasPage, HaveGrown, HaveGrownBy, IsNoRamPage, IsRamPage};

use crate::copies::{Copies, Known};
use law_leases::{Bytes, Page};
use nova_kernel::Kernel;
use rv_core::Regs;
use std::alloc::{AllocError, Global};

/// How many pages after that of pc are looked at.
const FOLLOWING: u32 = 4;

/// Copies the RAM frame `frame`, which isn't copied yet.
fn copy_frame(
    copies: &mut Copies,
    kernel: &Kernel,
    alloc: Global,
    frame: u32,
) -> Result<(), AllocError>
    requires there { frame < length kernel.now.state.memory.ram }
    requires free { copy_at copies.old.pages frame ≡ None }
    ensures { OnOk result (HasCopy kernel.now.state.memory.ram frame copies.old copies.new) }
{
    let bytes = Vec::from_slice(alloc, kernel.frame(frame))?;
    let bytes = Bytes::new(bytes);
    let page = Page {
        frame,
        bytes,
        stores: 0,
    };
    copies.add(page)?;
    Ok(())
}

/// Whether `most` frames are copied.
fn is_full(copies: &Copies, most: usize) -> bool
    ensures { result ≡ nat_le most (length copies.now.pages) }
{
    copies.count() >= most
}

/// Adds `known`, a page that leads to RAM, with a copy of its frame. Where that isn't copied and `most` frames are, nothing is done.
fn enter(
    copies: &mut Copies,
    kernel: &Kernel,
    alloc: Global,
    pd: u32,
    known: Known,
    most: usize,
) -> Result<(), AllocError>
    requires there { known.frame < length kernel.now.state.memory.ram }
    requires leads { reach kernel.now.state.delegations.list pd known.page ≡ Some (place_of known) }
    requires new { known_in copies.old.known known.page ≡ None }
    ensures { OnOk result (HaveGrownBy kernel.now.state pd most known.page copies.old copies.new) }
{
    if copies.has(known.frame) {
        copies.know(known)?;
        return Ok(());
    }
    if is_full(copies, most) {
        return Ok(());
    }
    copy_frame(copies, kernel, alloc, known.frame)?;
    copies.know(known)?;
    Ok(())
}

/// Whether `frame` is a console.
fn is_console(kernel: &Kernel, frame: u32) -> bool
    ensures { result ≡ nat_le (length kernel.now.state.memory.ram) frame }
{
    frame >= kernel.ram()
}

/// What `page` of the protection domain `pd` leads to; none where it leads nowhere or to a console.
fn ram_page(kernel: &mut Kernel, pd: u32, page: u32) -> Option<Known>
    ensures some { IfSome result (λ x. IsRamPage kernel.old.state pd page x) }
    ensures none { result ≡ None → IsNoRamPage kernel.old.state pd page }
    ensures kept { kernel.new ≡ kernel.old }
{
    let found = kernel.reach(pd, page)?;
    if is_console(kernel, found.0) {
        return None;
    }
    Some(Known {
        page,
        frame: found.0,
        rights: found.1,
    })
}

/// Looks at `page`, and knows it where it leads to RAM. A console is never copied.
fn look_at(
    copies: &mut Copies,
    kernel: &mut Kernel,
    alloc: Global,
    pd: u32,
    page: u32,
    most: usize,
) -> Result<(), AllocError>
    ensures kept { kernel.new ≡ kernel.old }
    ensures grown { OnOk result (HaveGrownBy kernel.old.state pd most page copies.old copies.new) }
{
    if copies.knows(page) {
        return Ok(());
    }
    match ram_page(kernel, pd, page) {
        Some(known) => enter(copies, kernel, alloc, pd, known, most),
        None => Ok(()),
    }
}

/// Looks at the pages to which registers point.
fn look_at_registers(
    copies: &mut Copies,
    kernel: &mut Kernel,
    alloc: Global,
    pd: u32,
    regs: &Regs,
    most: usize,
) -> Result<(), AllocError>
    ensures kept { kernel.new ≡ kernel.old }
    ensures grown { OnOk result (HaveGrown kernel.old.state pd most copies.old copies.new) }
{
    for i in 1..32 {
        look_at(copies, kernel, alloc, pd, regs.get(i) / 4096, most)?;
    }
    Ok(())
}

/// Looks at the pages that follow one.
fn look_after(
    copies: &mut Copies,
    kernel: &mut Kernel,
    alloc: Global,
    pd: u32,
    page: u32,
    most: usize,
) -> Result<(), AllocError>
    requires { page < 1048576 }
    ensures kept { kernel.new ≡ kernel.old }
    ensures grown { OnOk result (HaveGrown kernel.old.state pd most copies.old copies.new) }
{
    for i in 0..FOLLOWING {
        look_at(copies, kernel, alloc, pd, page + 1 + i, most)?;
    }
    Ok(())
}

/// Pages of the protection domain `pd`, with copies of at most `most` RAM frames: that of pc, those to which
/// registers point, and those that follow that of pc. The kernel stays as it was.
pub fn gather(
    kernel: &mut Kernel,
    alloc: Global,
    pd: u32,
    regs: &Regs,
    most: usize,
) -> Result<Copies, AllocError>
    requires { 1 ≤ most }
    ensures kept { kernel.new ≡ kernel.old }
    ensures gathered { IfOk result (λ c. AreGathered kernel.old.state pd most c) }
    ensures code { IfOk result (λ c. HasPage kernel.old.state pd (regs.now.pc / 4096) c) }
{
    let mut copies = Copies::new(Vec::new(alloc), Vec::new(alloc));
    let code = regs.pc() / 4096;
    look_at(&mut copies, kernel, alloc, pd, code, most)?;
    look_at_registers(&mut copies, kernel, alloc, pd, regs, most)?;
    look_after(&mut copies, kernel, alloc, pd, code, most)?;
    Ok(copies)
}
