ghost use Rattle.std.specs.Prelude.{◌≡◌, ◌+◌, ◌-◌, ◌*◌, ◌/◌, ◌%◌, ◌^◌, ◌<◌, ◌≤◌, [], ◌∷◌, ◌++◌, length, max, replicate, slice_get, slice_set, Some, IfOk, OnOk, OnErr};
ghost use Rattle.nova_model.specs.Memory.{read, written};
ghost use Rattle.nova_model.specs.Boot.{laid};
ghost use Rattle.nova_guest.specs.Conditions.{IsWidth};
ghost use Rattle.nova_frames.specs.Store.{AreWhole, GrowsByConsoles};

use nova_guest::words::{read_word, write_word};
use nova_model::LogByte;
use std::alloc::{AllocError, Global};
use std::marker::Model;

/// How many bytes a frame has.
pub const FRAME_SIZE: usize = 4096;

/// The frames of a machine, by number: RAM from 0 on, and after it a frame for each console. What is stored to
/// the consoles goes to one log, with room for `room` bytes more.
#[derive(Drop)]
pub struct Frames {
    ram: Vec<[u8; FRAME_SIZE]>,
    consoles: u32,
    log: Vec<LogByte>,
    room: usize,
}

impl Model for Frames {
    ghost use Rattle.std.specs.Prelude.{◌+◌, ◌^◌, ◌≤◌, vec_len, vec_capacity};
    ghost use Rattle.nova_frames.specs.Store.{FrameStore, AreWhole};

    ghost Value = { FrameStore };

    ghost view = { λ f. record {
      memory = record { ram = f.ram.items; log = f.log.items };
      consoles = f.consoles;
      room = f.room;
    } };

    ghost invariant = { λ f. (vec_len f.ram ≤ 2 ^ 14) × AreWhole f.ram.items × (f.consoles ≤ 16)
        × (vec_len f.log + f.room ≤ vec_capacity f.log) };
}

impl Frames {
    /// `2^ram_order` RAM frames of zeros, `consoles` consoles, and an empty log that takes `log_room` bytes.
    /// The order is at most 14, and there are at most 16 consoles. More room than an allocation can hold counts
    /// as out of memory.
    pub fn new(
        alloc: Global,
        ram_order: u8,
        consoles: u32,
        log_room: u64,
    ) -> Result<Frames, AllocError>
        requires order { ram_order ≤ 14 }
        requires consoles { consoles ≤ 16 }
        ensures { IfOk result (λ f. f ≡ record {
          memory = record { ram = replicate (2 ^ ram_order) (replicate FRAME_SIZE 0); log = [] };
          consoles = consoles;
          room = log_room;
        }) }
    {
        let mut ram = Vec::new(alloc);
        ram.resize(1 << ram_order, [0; FRAME_SIZE])?;
        let room = log_room as usize;
        let log = Vec::with_capacity(alloc, room)?;
        Ok(Frames {
            ram,
            consoles,
            log,
            room,
        })
    }

    /// Copies RAM, consoles and log into memory of their own. The copy's log has no room for more bytes.
    pub fn copy(&self) -> Result<Frames, AllocError>
        ensures memory { IfOk result (λ copy. copy.memory ≡ self.now.memory) }
        ensures consoles { IfOk result (λ copy. copy.consoles ≡ self.now.consoles) }
        ensures room { IfOk result (λ copy. copy.room ≡ 0) }
    {
        let ram = Vec::from_slice(*self.ram.allocator(), self.ram.as_slice())?;
        let log = Vec::from_slice(*self.log.allocator(), self.log.as_slice())?;
        Ok(Frames {
            ram,
            consoles: self.consoles,
            log,
            room: 0,
        })
    }

    /// The number of RAM frames. The first console has the number after them.
    pub fn ram_frames(&self) -> u32
        ensures count { result ≡ length self.now.memory.ram }

        // At any time each of them has all its bytes.
        ensures whole { AreWhole self.now.memory.ram }
    {
        self.ram.len() as u32
    }

    /// The number of consoles.
    pub fn consoles(&self) -> u32
        ensures { result ≡ self.now.consoles }
    {
        self.consoles
    }

    /// How many more bytes the log takes.
    pub fn room(&self) -> u64
        ensures { result ≡ self.now.room }
    {
        self.room as u64
    }

    /// Makes room for `bytes` more bytes in the log. Room that was made before stays.
    pub fn reserve_log(&mut self, bytes: usize) -> Result<(), AllocError>
        ensures ok { OnOk result (self.new ≡ record self.old { room = max self.old.room bytes }) }
        ensures err { OnErr result (self.new ≡ self.old) }
    {
        self.log.reserve(bytes)?;
        self.room = self.room.max(bytes);
        Ok(())
    }

    /// What was stored to the consoles, in order.
    pub fn log(&self) -> &[LogByte]
        ensures { result.now ≡ self.now.memory.log }
    {
        self.log.as_slice()
    }

    /// The bytes of the RAM frame `frame`.
    pub fn frame(&self, frame: u32) -> &[u8]
        requires { frame < length self.now.memory.ram }
        ensures bytes { slice_get self.now.memory.ram frame ≡ Some result.now }
        ensures size { length result.now ≡ FRAME_SIZE }
    {
        &self.ram[frame as usize]
    }

    /// Replaces the bytes of the RAM frame `frame` by `bytes`.
    pub fn write_frame(&mut self, frame: u32, bytes: &[u8])
        requires there { frame < length self.old.memory.ram }
        requires size { length bytes.now ≡ FRAME_SIZE }
        ensures { self.new ≡ record self.old {
          memory = record self.old.memory { ram = slice_set self.old.memory.ram frame bytes.now };
        } }
    {
        self.ram[frame as usize].copy_from_slice(bytes);
    }

    /// The number in the `width` bytes, 1, 2 or 4, of `frame` from `offset` on, the lowest byte first (RV32I
    /// manual, loads). A console gives 0. The frame exists, and the offset is a multiple of the width.
    pub fn load(&self, frame: u32, offset: u32, width: u32) -> u32
        requires there { frame < length self.now.memory.ram + self.now.consoles }
        requires width { IsWidth width }
        requires within { offset < FRAME_SIZE }
        requires aligned { offset % width ≡ 0 }
        ensures number { result ≡ read self.now.memory frame offset width }
        ensures fits { result < 2 ^ (8 * width) }
    {
        if frame < self.ram_frames() {
            read_word(&self.ram[frame as usize][offset as usize..], width)
        } else {
            0
        }
    }

    /// Stores the lowest `width` bytes, 1, 2 or 4, of `value` to `frame` from `offset` on, the lowest byte
    /// first (RV32I manual, stores). To a console, a store at offset 0 enters the low byte in the log, and any
    /// other does nothing. The frame exists, the offset is a multiple of the width, and the log has room.
    #[inline(always)]
    pub fn store(&mut self, frame: u32, offset: u32, width: u32, value: u32)
        requires there { frame < length self.old.memory.ram + self.old.consoles }
        requires width { IsWidth width }
        requires within { offset < FRAME_SIZE }
        requires aligned { offset % width ≡ 0 }
        requires room { 0 < self.old.room }
        ensures memory { self.new.memory ≡ written self.old.memory frame offset width value }
        ensures log { GrowsByConsoles self.old self.new frame offset value }

        // What the log takes from the room is what it grows by: a byte at most.
        ensures room { self.new.room + length self.new.memory.log ≡ self.old.room + length self.old.memory.log }
        ensures one { self.old.room ≤ self.new.room + 1 }
        ensures consoles { self.new.consoles ≡ self.old.consoles }
    {
        let ram_frames = self.ram_frames();
        if frame < ram_frames {
            let bytes = &mut self.ram[frame as usize];
            write_word(&mut bytes[offset as usize..], width, value);
        } else if offset == 0 {
            self.enter(frame - ram_frames, value);
        }
    }

    /// Enters the low byte of `value`, stored to the console `console`, in the log.
    #[inline(never)]
    fn enter(&mut self, console: u32, value: u32)
        requires { 0 < self.old.room }
        ensures { self.new ≡ record self.old {
          memory = record self.old.memory {
            log = self.old.memory.log ++ record { console = console; value = value % 256 } ∷ [];
          };
          room = self.old.room - 1;
        } }
    {
        let value = (value & 0xff) as u8;
        self.log.push_reserved(LogByte { console, value });
        self.room -= 1;
    }

    /// Lays `bytes` into RAM one after another from `address` on, across frames. They lie in RAM.
    pub fn put(&mut self, address: u32, bytes: &[u8])
        requires { address + length bytes.now ≤ FRAME_SIZE * length self.old.memory.ram }
        ensures { self.new ≡ record self.old { memory = laid self.old.memory address bytes.now } }
    {
        for (i, &byte) in bytes.iter().enumerate() {
            self.put_byte(address as usize + i, byte);
        }
    }

    /// Lays `byte` at `address` of RAM.
    fn put_byte(&mut self, address: usize, byte: u8)
        requires { address < FRAME_SIZE * length self.old.memory.ram }
        ensures { self.new ≡ record self.old {
          memory = written self.old.memory (address / FRAME_SIZE) (address % FRAME_SIZE) 1 byte;
        } }
    {
        self.ram[address / FRAME_SIZE][address % FRAME_SIZE] = byte;
    }
}
