ghost use Rattle.std.specs.Prelude.{◌≡◌, ◌+◌, ◌*◌, ◌/◌, ◌^◌, ◌<◌, ◌≤◌, filter, [], is_some, length, take, drop, IfOk, OnOk, OnErr};
ghost use Rattle.nova_guest.specs.Cells.{cell_at, cells_given, frame_of, missing, pieces, stored_in, stored_in_cell};
ghost use Rattle.nova_guest.specs.Conditions.{AreWhole, IsStore};
ghost use Rattle.nova_guest.specs.Frames.{read_in};
ghost use Rattle.nova_guest.specs.Keyed.{placed_all};
ghost use Rattle.nova_guest.specs.Maps.{is_covered};

use crate::bytes::Bytes;
use crate::keyed::{Keyed, place_all};
use crate::map::Maps;
use std::alloc::{AllocError, Global};
use std::marker::Model;

/// How many bytes a frame has.
const PAGE_SIZE: usize = 4096;

/// A RAM frame that a guest reaches, with its 4,096 bytes.
#[derive(Drop)]
pub struct Cell {
    pub frame: u32,
    pub contents: Bytes,
}

/// The cells of a guest, each frame once, by frame.
#[derive(Drop)]
pub struct Cells {
    items: Vec<Cell>,
}

impl Model for Cells {
    ghost use Rattle.std.specs.Prelude.{List};
    ghost use Rattle.nova_guest.specs.declared.cell.Cell.{Cell};

    ghost Value = { List Cell };

    ghost view = { λ c. c.items.items };
}

impl Keyed for Cell {
    ghost use Rattle.nova_guest.specs.Cells.{frame_of};

    ghost key_of = { frame_of };

    fn key(&self) -> u32 {
        self.frame
    }
}

impl Cell {
    /// Copies the cell: the same frame, with its bytes in memory of their own.
    pub fn copy(&self) -> Result<Cell, AllocError>
        ensures { IfOk result (λ copy. copy ≡ self.now) }
    {
        Ok(Cell {
            frame: self.frame,
            contents: self.contents.copy()?,
        })
    }

    /// Stores `value`, of `width` bytes, at `offset` of `frame`; the bytes change only where this cell is of that frame.
    fn store(&mut self, frame: u32, offset: u32, width: u32, value: u32)
        requires whole { length self.old.contents ≡ 4096 }
        requires place { IsStore offset width }
        ensures { self.new ≡ stored_in_cell frame offset width value self.old }
    {
        if self.frame == frame {
            self.contents.store(offset, width, value);
        }
    }
}

/// The cell of the `i`-th frame from `frame` on, whose bytes stand in the contents after those of the
/// frames before it.
fn piece(alloc: Global, frame: u32, contents: &[u8], i: usize) -> Result<Cell, AllocError>
    requires there { i < length contents.now / PAGE_SIZE }
    requires frame { frame + i < 2 ^ 32 }
    ensures { IfOk result (λ c. c ≡ record { frame = frame + i; contents = take PAGE_SIZE (drop (i * PAGE_SIZE) contents.now) }) }
{
    let start = i * PAGE_SIZE;
    let bytes = Vec::from_slice(alloc, &contents[start..start + PAGE_SIZE])?;
    Ok(Cell {
        frame: frame + i as u32,
        contents: Bytes::new(bytes),
    })
}

impl Cells {
    /// The cells of the vector `items`.
    pub fn new(items: Vec<Cell>) -> Cells
        ensures { result ≡ items.items }
    {
        Cells { items }
    }

    /// No cells.
    pub fn none(&self) -> Cells
        ensures { result ≡ [] }
    {
        Cells {
            items: Vec::new(*self.items.allocator()),
        }
    }

    /// The vector of these cells.
    pub fn into_vec(self) -> Vec<Cell>
        ensures { result.items ≡ self }
    {
        self.items
    }

    /// The cells.
    pub fn as_slice(&self) -> &[Cell]
        ensures { result.now ≡ self.now }
    {
        self.items.as_slice()
    }

    /// Copies the cells into memory of their own.
    pub fn copy(&self) -> Result<Cells, AllocError>
        ensures { IfOk result (λ copy. copy ≡ self.now) }
    {
        let mut items = Vec::with_capacity(*self.items.allocator(), self.items.len())?;
        for cell in &self.items {
            items.push(cell.copy()?)?;
        }
        Ok(Cells { items })
    }

    /// Whether `frame` has a cell.
    pub fn has(&self, frame: u32) -> bool
        ensures { result ≡ is_some (cell_at self.now frame) }
    {
        for cell in &self.items {
            if cell.frame == frame {
                return true;
            }
        }
        false
    }

    /// The number in the `width` bytes, 1, 2 or 4, of `frame` from `offset` on, the lowest byte first. A frame
    /// without a cell gives 0. The offset is a multiple of the width below 4,096.
    pub fn load(&self, frame: u32, offset: u32, width: u32) -> u32
        requires whole { AreWhole self.now }
        requires place { IsStore offset width }
        ensures number { result ≡ read_in (cell_at self.now frame) offset width }
        ensures fits { result < 2 ^ (8 * width) }
    {
        for cell in &self.items {
            if cell.frame == frame {
                return cell.contents.load(offset, width);
            }
        }
        0
    }

    /// Stores the lowest `width` bytes, 1, 2 or 4, of `value` to `frame` from `offset` on, the lowest byte
    /// first. A frame without a cell takes none. The offset is a multiple of the width below 4,096.
    pub fn store(&mut self, frame: u32, offset: u32, width: u32, value: u32)
        requires whole { AreWhole self.old }
        requires place { IsStore offset width }
        ensures stored { self.new ≡ stored_in self.old frame offset width value }
        ensures whole { AreWhole self.new }
    {
        for i in 0..self.items.len() {
            self.items[i].store(frame, offset, width, value);
        }
    }

    /// A cell for each frame from `frame` on, whose bytes stand one after another in the contents.
    fn pieces(&self, frame: u32, contents: &[u8]) -> Result<Vec<Cell>, AllocError>
        requires { frame + length contents.now / PAGE_SIZE ≤ 2 ^ 32 }
        ensures { IfOk result (λ cells. cells.items ≡ pieces PAGE_SIZE (length contents.now / PAGE_SIZE) frame contents.now) }
    {
        let alloc = *self.items.allocator();
        let count = contents.len() / PAGE_SIZE;
        let mut cells = Vec::with_capacity(alloc, count)?;
        for i in 0..count {
            cells.push(piece(alloc, frame, contents, i)?)?;
        }
        Ok(cells)
    }

    /// Drops of the cells `given` those of frames that have one.
    fn skip(&self, given: &mut Vec<Cell>)
        ensures { given.new.items ≡ missing self.now given.old.items }
    {
        given.retain(|cell| !self.has(cell.frame));
    }

    /// Adds a cell for each frame from `frame` on that has none, with its bytes from `contents`.
    #[tactic(auto, unfolding(crate::specs::Cells::page_size))]
    pub fn add(&mut self, frame: u32, contents: &[u8]) -> Result<(), AllocError>
        requires { frame + length contents.now / PAGE_SIZE ≤ 2 ^ 32 }
        ensures added { OnOk result (self.new ≡ placed_all frame_of (missing self.old (cells_given frame contents.now)) self.old) }
        ensures refused { OnErr result (self.new ≡ self.old) }
    {
        let mut cells = self.pieces(frame, contents)?;
        self.skip(&mut cells);
        place_all(&mut self.items, cells)
    }

    /// Drops the cells to which none of `maps` leads.
    pub fn keep(&mut self, maps: &Maps)
        ensures { self.new ≡ filter (λ c. is_covered maps.now c.frame) self.old }
    {
        self.items.retain(|cell| maps.lead_to(cell.frame));
    }
}
