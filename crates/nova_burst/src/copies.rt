ghost use Rattle.std.specs.Prelude.{ℕ, ◌≡◌, ◌==◌, ◌+◌, ◌-◌, ◌*◌, ◌%◌, ◌/◌, ◌^◌, ◌<◌, ◌≤◌, [], ◌∷◌, ◌++◌, IfSome, None, OnOk, Some, is_some, length, option_and_then, option_map, slice_get};
ghost use Rattle.std.specs.List.{All, find};
ghost use Rattle.nova_guest.specs.Conditions.{IsStore, IsWidth};
ghost use Rattle.nova_guest.specs.Frames.{frame_from, read_in, replaced};
ghost use Rattle.byteorder.specs.Endian.{little_bytes};
ghost use Rattle.law_leases.specs.Leases.{copy_at, read_copy, stored_in_page, stored_in_pages};
ghost use Rattle.law_leases.specs.Paging.{AreOnce};
ghost use Rattle.nova_range.specs.Rights.{execute_right, read_right, write_right};
ghost use Rattle.nova_burst.specs.Copies.{HasRoom, IsCopyFor, IsCopyOf, fetched, known_in, put, takes};

use bitflags::Flags;
use law_leases::Page;
use nova_range::Rights;
use rv_core::Bus;
use std::alloc::AllocError;
use std::marker::Model;

/// A page that is known: the frame that it leads to, and what is allowed there.
#[derive(Clone, Copy)]
pub struct Known {
    pub page: u32,
    pub frame: u32,
    pub rights: Rights,
}

/// The page that was touched last in some way, and the place of its copy. Beyond all pages before any was.
#[derive(Clone, Copy)]
struct Recent {
    page: u32,
    copy: usize,
}

/// Beyond all pages.
const NO_PAGE: u32 = 1048576;

const NOTHING: Recent = Recent {
    page: NO_PAGE,
    copy: 0,
};

/// Copies of frames, each once, with the pages that are known to lead there. What isn't known or not copied
/// isn't there. The pages that were fetched from, loaded from and stored to last are found at once.
#[derive(Drop)]
pub struct Copies {
    known: Vec<Known>,
    pages: Vec<Page>,
    fetched: Recent,
    loaded: Recent,
    stored: Recent,
}

impl Model for Copies {
    ghost use Rattle.nova_burst.specs.Copies.{AreSound, CopiesState, known_in};

    ghost Value = { CopiesState };

    ghost view = { λ c. record { known = c.known.items; pages = c.pages.items } };

    ghost invariant = { λ c. AreSound (known_in c.known.items) c.pages.items c.fetched.page c.fetched.copy c.loaded.page c.loaded.copy c.stored.page c.stored.copy };
}

/// Stores the lowest `width` bytes of `value` to the copy `page`, and counts it.
fn store_in(page: &mut Page, offset: u32, width: u32, value: u32)
    requires whole { length page.old.bytes ≡ 4096 }
    requires place { IsStore offset width }
    requires few { page.old.stores < 2 ^ 64 - 1 }
    ensures { page.new ≡ record page.old { bytes = replaced page.old.bytes offset (little_bytes width value); stores = page.old.stores + 1 } }
{
    page.bytes.store(offset, width, value);
    page.stores += 1;
}

impl Copies {
    /// The copies `pages` of frames, each once and of 4,096 bytes, with the pages `known` to lead there.
    pub fn new(known: Vec<Known>, pages: Vec<Page>) -> Copies
        requires whole { All (λ p. length p.bytes ≡ 4096) pages.items }
        requires once { AreOnce pages.items }
        ensures { result ≡ record { known = known.items; pages = pages.items } }
    {
        Copies {
            known,
            pages,
            fetched: NOTHING,
            loaded: NOTHING,
            stored: NOTHING,
        }
    }

    /// The pages that are known, and the copies.
    pub fn into_parts(self) -> (Vec<Known>, Vec<Page>)
        ensures known { result.0.items ≡ self.known }
        ensures pages { result.1.items ≡ self.pages }
        ensures whole { All (λ p. length p.bytes ≡ 4096) result.1.items }
        ensures once { AreOnce result.1.items }
    {
        (self.known, self.pages)
    }

    /// How many frames are copied.
    pub fn count(&self) -> usize
        ensures { result ≡ length self.now.pages }
    {
        self.pages.len()
    }

    /// Adds `known`, a page that is known, after the others.
    pub fn know(&mut self, known: Known) -> Result<(), AllocError>
        ensures { OnOk result (self.new ≡ record self.old { known = self.old.known ++ known ∷ [] }) }
    {
        self.known.push(known)?;
        Ok(())
    }

    /// Adds `page`, a copy of a frame that isn't copied yet, after the others.
    pub fn add(&mut self, page: Page) -> Result<(), AllocError>
        requires whole { length page.bytes ≡ 4096 }
        requires new { copy_at self.old.pages page.frame ≡ None }
        ensures { OnOk result (self.new ≡ record self.old { pages = self.old.pages ++ page ∷ [] }) }
    {
        self.pages.push(page)?;
        Ok(())
    }

    /// Whether `page` is known.
    pub fn knows(&self, page: u32) -> bool
        ensures { result ≡ is_some (known_in self.now.known page) }
    {
        self.place(page).is_some()
    }

    /// What `page` is known to lead to.
    fn place(&self, page: u32) -> Option<Known>
        ensures { result ≡ find (λ k. k.page == page) self.now.known }
    {
        for known in &self.known {
            if known.page == page {
                return Some(*known);
            }
        }
        None
    }

    /// The frame that `address` is known to lead to, where the right is there.
    fn frame_for(&self, right: Rights, address: u32) -> Option<u32>
        ensures { result ≡ frame_from (known_in self.now.known) right.0 address }
    {
        let known = self.place(address / 4096)?;
        if known.rights.contains(right) {
            Some(known.frame)
        } else {
            None
        }
    }

    /// Whether `frame` is copied.
    pub fn has(&self, frame: u32) -> bool
        ensures { result ≡ is_some (copy_at self.now.pages frame) }
    {
        for page in &self.pages {
            if page.frame == frame {
                return true;
            }
        }
        false
    }

    /// The place of the copy of `frame`.
    fn copy_of(&self, frame: u32) -> Option<usize>
        ensures some { IfSome result (λ i. IsCopyOf self.now.pages frame i) }
        ensures none { result ≡ None → copy_at self.now.pages frame ≡ None }
    {
        for i in 0..self.pages.len() {
            if self.pages[i].frame == frame {
                return Some(i);
            }
        }
        None
    }

    /// The place of the copy to which `address` is known to lead, where the right is there.
    #[inline(never)]
    fn find(&self, right: Rights, address: u32) -> Option<usize>
        ensures some { IfSome result (λ i. IsCopyFor (known_in self.now.known) self.now.pages right.0 (address / 4096) i) }
        ensures none { result ≡ None → option_and_then (copy_at self.now.pages) (frame_from (known_in self.now.known) right.0 address) ≡ None }
    {
        let frame = self.frame_for(right, address)?;
        self.copy_of(frame)
    }

    /// The place of the copy from which `address` is fetched.
    fn copy_to_fetch(&mut self, address: u32) -> Option<usize>
        ensures same { self.new ≡ self.old }
        ensures once { AreOnce self.old.pages }
        ensures some { IfSome result (λ i. IsCopyFor (known_in self.old.known) self.old.pages execute_right (address / 4096) i) }
        ensures none { result ≡ None → option_and_then (copy_at self.old.pages) (frame_from (known_in self.old.known) execute_right address) ≡ None }
    {
        let page = address / 4096;
        if page == self.fetched.page {
            return Some(self.fetched.copy);
        }
        let copy = self.find(Rights::EXECUTE, address)?;
        self.fetched = Recent { page, copy };
        Some(copy)
    }

    /// The place of the copy from which `address` is loaded.
    fn copy_to_load(&mut self, address: u32) -> Option<usize>
        ensures same { self.new ≡ self.old }
        ensures once { AreOnce self.old.pages }
        ensures some { IfSome result (λ i. IsCopyFor (known_in self.old.known) self.old.pages read_right (address / 4096) i) }
        ensures none { result ≡ None → option_and_then (copy_at self.old.pages) (frame_from (known_in self.old.known) read_right address) ≡ None }
    {
        let page = address / 4096;
        if page == self.loaded.page {
            return Some(self.loaded.copy);
        }
        let copy = self.find(Rights::READ, address)?;
        self.loaded = Recent { page, copy };
        Some(copy)
    }

    /// The place of the copy to which `address` is stored.
    fn copy_to_store(&mut self, address: u32) -> Option<usize>
        ensures same { self.new ≡ self.old }
        ensures once { AreOnce self.old.pages }
        ensures some { IfSome result (λ i. IsCopyFor (known_in self.old.known) self.old.pages write_right (address / 4096) i) }
        ensures none { result ≡ None → option_and_then (copy_at self.old.pages) (frame_from (known_in self.old.known) write_right address) ≡ None }
    {
        let page = address / 4096;
        if page == self.stored.page {
            return Some(self.stored.copy);
        }
        let copy = self.find(Rights::WRITE, address)?;
        self.stored = Recent { page, copy };
        Some(copy)
    }

    /// The number in the 1, 2 or 4 bytes of a copy from `offset` on.
    fn load_from(&self, copy: usize, offset: u32, width: u32) -> u32
        requires there { copy < length self.now.pages }
        requires place { IsStore offset width }
        ensures number { IfSome (slice_get self.now.pages copy) (λ p. result ≡ read_in (Some p.bytes) offset width) }
        ensures fits { result < 2 ^ (8 * width) }
    {
        self.pages[copy].bytes.load(offset, width)
    }

    /// Stores the lowest bytes of `value` to a copy.
    fn store_to(&mut self, copy: usize, offset: u32, width: u32, value: u32)
        requires there { copy < length self.old.pages }
        requires place { IsStore offset width }
        requires room { HasRoom self.old }
        ensures { (f : ℕ) → IsCopyOf self.old.pages f copy → self.new ≡ record self.old { pages = stored_in_pages self.old.pages f offset width value } }
    {
        store_in(&mut self.pages[copy], offset, width, value);
    }

    /// The word at `address`, a multiple of 4, where it may be executed and its frame is copied, and the frame.
    pub(crate) fn word_at(&mut self, address: u32) -> Option<(u32, u32)>
        requires { address % 4 ≡ 0 }
        ensures same { self.new ≡ self.old }
        ensures some { IfSome result (λ r. (frame_from (known_in self.old.known) execute_right address ≡ Some r.0) × (fetched self.old address ≡ Some r.1)) }
        ensures none { result ≡ None → fetched self.old address ≡ None }
    {
        let frame = self.frame_for(Rights::EXECUTE, address)?;
        let word = self.fetch(address)?;
        Some((frame, word))
    }

    /// The frame of the copy at the place `copy`.
    #[inline(always)]
    fn frame_of(&self, copy: usize) -> u32
        ensures { IfSome (slice_get self.now.pages copy) (λ p. result ≡ p.frame) }
    {
        match self.pages.get(copy) {
            Some(page) => page.frame,
            None => 0,
        }
    }

    /// A store, where it is taken: the frame to whose copy it goes.
    #[inline(always)]
    pub(crate) fn store_at(&mut self, addr: u32, width: u32, value: u32) -> Option<u32>
        requires width { IsWidth width }
        requires aligned { addr % width ≡ 0 }
        requires fits { value < 2 ^ (8 * width) }
        requires room { HasRoom self.old }
        ensures gives { is_some result ≡ takes self.old addr width }
        ensures frame { IfSome result (λ f. frame_from (known_in self.old.known) write_right addr ≡ Some f) }
        ensures taken { IfSome result (λ f. self.new ≡ put (record { address = addr; width = width; value = value }) self.old) }
        ensures refused { result ≡ None → self.new ≡ self.old }
    {
        let copy = self.copy_to_store(addr)?;
        let frame = self.frame_of(copy);
        self.store_to(copy, addr % 4096, width, value);
        Some(frame)
    }
}

impl Bus for Copies {
    ghost use Rattle.nova_burst.specs.Copies.{CopiesState, HasRoom, fetched, loaded, takes, put};

    ghost State = { CopiesState };

    ghost state = { λ c. c };

    ghost fetched = { fetched };

    ghost loaded = { loaded };

    ghost takes = { takes };

    ghost stored = { put };

    ghost room = { HasRoom };

    #[inline(always)]
    fn fetch(&mut self, addr: u32) -> Option<u32> {
        let copy = self.copy_to_fetch(addr)?;
        Some(self.load_from(copy, addr % 4096, 4))
    }

    #[inline(always)]
    fn load(&mut self, addr: u32, width: u32) -> Option<u32> {
        let copy = self.copy_to_load(addr)?;
        Some(self.load_from(copy, addr % 4096, width))
    }

    #[inline(always)]
    fn store(&mut self, addr: u32, width: u32, value: u32) -> bool {
        match self.copy_to_store(addr) {
            Some(copy) => {
                self.store_to(copy, addr % 4096, width, value);
                true
            }
            None => false,
        }
    }
}
