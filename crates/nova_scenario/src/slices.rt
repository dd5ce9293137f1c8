ghost use Rattle.std.specs.Prelude.{◌≡◌, slice_range};

/// The bytes from `start` up to `stop`, as far as they are there.
pub fn between(bytes: &[u8], start: u64, stop: u64) -> &[u8]
    ensures { result.now ≡ slice_range bytes.now start stop }
{
    let (_, after) = bytes.split_at(bytes.len().min(start as usize));
    let len = stop.saturating_sub(start);
    let (text, _) = after.split_at(after.len().min(len as usize));
    text
}
