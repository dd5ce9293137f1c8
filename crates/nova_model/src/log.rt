/// A byte that was stored to a console: the console's number, and the byte.
#[derive(Clone, Copy)]
pub struct LogByte {
    pub console: u32,
    pub value: u8,
}
