// Laws of what instructions see.
ghost use Rattle.std.specs.Prelude.{◌≡◌, ℕ};
ghost use Rattle.rv_model.specs.Step.{Space, one};
ghost use Rattle.nova_model.specs.Deeds.{instruction};
ghost use Rattle.nova_model.specs.State.{KernelState, context};
ghost use Rattle.law_origins.specs.Reachable.{IsReachable};
ghost use Rattle.law_integrity.specs.Spaces.{IsSpaceOf};

/// In each reachable state, the next instruction of an execution context is one of its registers over a space
/// in which fetches and loads find exactly the bytes of frames that its domain reaches, with the right to
/// execute or to read, and a thread's own message words. In that space exactly those stores are taken that go
/// to such words, or to a frame that is reached with the right to write.
pub fn instructions_see_what_their_domain_reaches()
    ensures { (k : KernelState) (ec : ℕ)
        → IsReachable k
        → (space : Space) × (instruction k ec ≡ one (context k ec).regs space)
        × IsSpaceOf k ec space }
{}
