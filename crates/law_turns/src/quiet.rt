// A law of what it is that the kernel is quiet.
ghost use Rattle.std.specs.Prelude.{◌≡◌, ◌↔◌, ◌<◌, ℕ, true, None};
ghost use Rattle.nova_model.specs.Choice.{is_quiet};
ghost use Rattle.nova_model.specs.State.{KernelState};
ghost use Rattle.nova_model.specs.Turn.{turn};

/// The kernel is quiet exactly where each of its processors is idle: none has a turn to take.
pub fn quiet_is_every_processor_idle()
    ensures { (k : KernelState) → (is_quiet k ≡ true) ↔ ((cpu : ℕ) → cpu < k.cpus → turn k cpu ≡ None) }
{}
