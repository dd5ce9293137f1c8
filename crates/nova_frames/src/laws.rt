ghost use Rattle.std.specs.Prelude.{◌≡◌, ℕ, ◌+◌, ◌%◌, ◌^◌, ◌<◌, ◌≤◌, length};
ghost use Rattle.nova_model.specs.Memory.{Memory, read, written};
ghost use Rattle.nova_frames.specs.Store.{AreWhole, AreApart};
ghost use Rattle.nova_frames.specs.declared.frames.TheConstants.{FRAME_SIZE};

/// A load from RAM gives the lowest bytes of what was stored at its place last. A store to RAM leaves every
/// place that has no byte in common with its own.
pub fn loads_give_what_was_stored()
    ensures same { (m : Memory) (frame offset width value : ℕ) → AreWhole m.ram → frame < length m.ram → offset + width ≤ FRAME_SIZE
        → read (written m frame offset width value) frame offset width ≡ value % 256 ^ width }
    ensures others { (m : Memory) (frame offset width value other place count : ℕ) → AreWhole m.ram → frame < length m.ram
        → offset + width ≤ FRAME_SIZE → AreApart frame offset width other place count
        → read (written m frame offset width value) other place count ≡ read m other place count }
{}
