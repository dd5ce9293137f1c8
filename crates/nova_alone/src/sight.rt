ghost use Rattle.std.specs.Prelude.{◌≡◌};
ghost use Rattle.nova_guest.specs.Alone.{byte_out};
ghost use Rattle.nova_guest.specs.Frames.{frame_from};
ghost use Rattle.nova_guest.specs.Maps.{page_in};

use bitflags::Flags;
use nova_guest::{Cells, Maps, Out};
use nova_range::Rights;
use rv_core::Bus;
use std::marker::Model;

/// What an instruction of a guest reaches, and what it puts out.
#[derive(Drop)]
pub(crate) struct Sight {
    pub maps: Maps,
    pub cells: Cells,
    pub out: Option<Out>,
}

impl Model for Sight {
    ghost use Rattle.nova_guest.specs.Conditions.{AreMaps, AreWhole};
    ghost use Rattle.nova_alone.specs.Sights.{SightState};

    ghost Value = { SightState };

    ghost view = { λ s. record { maps = s.maps; cells = s.cells; out = s.out } };

    ghost invariant = { λ s. AreMaps s.maps × AreWhole s.cells };
}

impl Sight {
    /// The frame that `address` leads to, where the right is there.
    fn frame_for(&self, right: Rights, address: u32) -> Option<u32>
        ensures { result ≡ frame_from (page_in self.now.maps) right.0 address }
    {
        let page = self.maps.page_at(address / 4096)?;
        if page.rights.contains(right) {
            Some(page.frame)
        } else {
            None
        }
    }
}

/// What a store of `value` to a console puts out: its low byte at offset 0, and nothing elsewhere.
fn byte_out(frame: u32, offset: u32, value: u32) -> Option<Out>
    ensures { result ≡ byte_out frame offset value }
{
    if offset == 0 {
        let value = (value & 0xff) as u8;
        Some(Out::Byte { frame, value })
    } else {
        None
    }
}

impl Bus for Sight {
    ghost use Rattle.nova_alone.specs.Sights.{SightState, fetched, loaded, takes, put};

    ghost State = { SightState };

    ghost state = { λ s. s };

    ghost fetched = { fetched };

    ghost loaded = { loaded };

    ghost takes = { takes };

    ghost stored = { put };

    ghost room = { λ _. Unit {0} };

    fn fetch(&mut self, addr: u32) -> Option<u32> {
        let frame = self.frame_for(Rights::EXECUTE, addr)?;
        Some(self.cells.load(frame, addr % 4096, 4))
    }

    fn load(&mut self, addr: u32, width: u32) -> Option<u32> {
        let frame = self.frame_for(Rights::READ, addr)?;
        Some(self.cells.load(frame, addr % 4096, width))
    }

    fn store(&mut self, addr: u32, width: u32, value: u32) -> bool {
        let Some(frame) = self.frame_for(Rights::WRITE, addr) else {
            return false;
        };
        if self.cells.has(frame) {
            self.cells.store(frame, addr % 4096, width, value);
        } else {
            self.out = byte_out(frame, addr % 4096, value);
        }
        true
    }
}
