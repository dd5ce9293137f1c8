ghost use Rattle.std.specs.Prelude.{◌≡◌, ◌<◌, ◌+◌, ◌*◌, ◌%◌, ◌^◌, length, IfSome, is_some, None};
ghost use Rattle.std.specs.Bool.{OnTrue, OnFalse};
ghost use Rattle.nova_model.specs.Delegations.{reach};
ghost use Rattle.nova_model.specs.Memory.{read};
ghost use Rattle.nova_utcb.specs.Pages.{IsWidth};
ghost use Rattle.nova_model.specs.AddressSpaces.{frame_for, words_at};
ghost use Rattle.nova_memory.specs.Previews.{entered};
ghost use Rattle.nova_memory.specs.Reach.{reached};
ghost use Rattle.nova_range.specs.Rights.{write_right};

use crate::reach::{OWN_PAGE, Reach, frame_with, is_own, page_in};
use nova_model::{Kind, Page, Rights};
use rv_core::bus::Bus;
use std::marker::Model;

// What is only looked at.
impl Reach {
    /// What `page` of the protection domain `pd` leads to, or nothing.
    pub fn page(&self, pd: u32, page: u32) -> Option<Page>
        ensures page { result ≡ reach self.now.nodes.delegations.list pd page }
        ensures there { IfSome result (λ p. p.frame < length self.now.memory.ram + self.now.consoles) }
    {
        let derivation = self.nodes.covering(pd, Kind::Mem, page)?;
        Some(page_in(&derivation, page))
    }

    /// The number in the 1, 2 or 4 bytes of `frame` from `offset` on, the lowest byte first. A console gives 0.
    /// The frame exists, and the offset is a multiple of the width.
    pub(crate) fn load_frame(&self, frame: u32, offset: u32, width: u32) -> u32
        requires there { frame < length self.now.memory.ram + self.now.consoles }
        requires width { IsWidth width }
        requires within { offset < 4096 }
        requires aligned { offset % width ≡ 0 }
        ensures number { result ≡ read self.now.memory frame offset width }
        ensures fits { result < 2 ^ (8 * width) }
    {
        self.frames.load(frame, offset, width)
    }
}

/// A store of the lowest `width` bytes of `value` to `frame`, from `offset` on.
#[derive(Clone, Copy)]
pub struct Write {
    pub frame: u32,
    pub offset: u32,
    pub width: u32,
    pub value: u32,
}

/// What an instruction that is only looked at reaches. A store is noted and not made.
#[derive(Drop)]
pub struct Preview<'a> {
    reach: &'a Reach,
    ec: u32,
    pd: u32,
    is_thread: bool,
    write: Option<Write>,
}

impl<'a> Model for Preview<'a> {
    ghost use Rattle.nova_memory.specs.Previews.{PreviewState, entered};

    ghost Value = { PreviewState };

    ghost view = { λ p. record { reach = entered p.reach.now p.ec p.pd p.is_thread; write = p.write } };
}

impl<'a> Preview<'a> {
    /// What the execution context `ec` of the protection domain `pd` reaches, over `reach`.
    pub fn new(reach: &'a Reach, ec: u32, pd: u32, is_thread: bool) -> Preview<'a>
        ensures { result ≡ record { reach = entered reach.now ec pd is_thread; write = None } }
    {
        Preview {
            reach,
            ec,
            pd,
            is_thread,
            write: None,
        }
    }

    /// The last store to a frame that was noted.
    pub fn write(&self) -> Option<Write>
        ensures { result ≡ self.now.write }
    {
        self.write
    }

    /// What `page` leads to, through the derivation that covers it; nothing where none does.
    fn page_at(&self, page: u32) -> Option<Page>
        ensures page { result ≡ (reached self.now.reach).page page }
        ensures there { IfSome result (λ p. p.frame < length self.now.reach.memory.ram + self.now.reach.consoles) }
    {
        if self.is_thread && page == OWN_PAGE {
            return None;
        }
        self.reach.page(self.pd, page)
    }

    /// The frame that `address` leads to, where the right is there.
    fn frame_for(&self, right: Rights, address: u32) -> Option<u32>
        ensures frame { result ≡ frame_for (reached self.now.reach) right.0 address }
        ensures there { IfSome result (λ frame. frame < length self.now.reach.memory.ram + self.now.reach.consoles) }
    {
        let page = self.page_at(address / 4096)?;
        frame_with(page, right)
    }

    /// A store to `address` that finds no frame: to message words, or refused.
    fn store_own(&mut self, address: u32) -> bool
        requires { frame_for (reached self.old.reach) write_right address ≡ None }
        ensures gives { result ≡ is_some (words_at (reached self.old.reach) address) }
        ensures taken { OnTrue result (self.new ≡ record self.old { write = None }) }
        ensures refused { OnFalse result (self.new ≡ self.old) }
    {
        if !is_own(self.is_thread, address) {
            return false;
        }
        self.write = None;
        true
    }
}

impl<'a> Bus for Preview<'a> {
    ghost use Rattle.nova_memory.specs.Previews.{PreviewState, fetched, loaded, noted, takes};

    ghost State = { PreviewState };

    ghost state = { λ p. p };

    ghost fetched = { fetched };

    ghost loaded = { loaded };

    ghost takes = { takes };

    ghost stored = { noted };

    ghost room = { λ _. Unit {0} };

    fn fetch(&mut self, addr: u32) -> Option<u32> {
        let frame = self.frame_for(Rights::EXECUTE, addr)?;
        Some(self.reach.load_frame(frame, addr % 4096, 4))
    }

    fn load(&mut self, addr: u32, width: u32) -> Option<u32> {
        let Some(frame) = self.frame_for(Rights::READ, addr) else {
            return self.reach.load_own(self.ec, self.is_thread, addr, width);
        };
        Some(self.reach.load_frame(frame, addr % 4096, width))
    }

    fn store(&mut self, addr: u32, width: u32, value: u32) -> bool {
        let Some(frame) = self.frame_for(Rights::WRITE, addr) else {
            return self.store_own(addr);
        };
        self.write = Some(Write {
            frame,
            offset: addr % 4096,
            width,
            value,
        });
        true
    }
}
