/// What is found of two sides.
#[derive(Drop)]
pub enum Verdict {
    /// They are the same but for their frames, with `inputs` inputs on each side. Of a pair the second frame stands for the first.
    Equal { inputs: u64, pairs: Vec<(u32, u32)> },
    /// They are born unlike.
    Views,
    /// They are the same up to this many inputs, and not with one more.
    Differ(u64),
}
