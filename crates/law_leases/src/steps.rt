use nova_guest::Bytes;
use rv_core::Regs;

/// A copy of a RAM frame: its bytes, and how many stores went to it.
#[derive(Drop)]
pub struct Page {
    pub frame: u32,
    pub bytes: Bytes,
    pub stores: u64,
}

/// `count` instructions that a virtual CPU executed on copies: its registers after them, and the frames to which they stored.
#[derive(Drop)]
pub struct Steps {
    pub count: u64,
    pub regs: Regs,
    pub pages: Vec<Page>,
}
