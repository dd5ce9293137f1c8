// Laws of semaphores: which contexts wait, and which is woken.
ghost use Rattle.std.specs.Prelude.{◌≡◌, ◌↔◌, ◌∷◌, ℕ, List, true, Some};
ghost use Rattle.nova_model.specs.Boot.{Scenario, boot};
ghost use Rattle.nova_model.specs.Deeds.{deed};
ghost use Rattle.nova_model.specs.Edges.{state_in};
ghost use Rattle.nova_model.specs.Runs.{run};
ghost use Rattle.nova_model.specs.Semaphores.{semaphore, waits};
ghost use Rattle.nova_model.specs.State.{KernelState};
ghost use Rattle.nova_model.specs.declared.context.State.TheVariants.{Blocked};
ghost use Rattle.nova_model.specs.declared.deed.Deed.TheVariants.{Ups};
ghost use Rattle.nova_sem.specs.Sound.{AreSound};

/// Whatever list of turns is taken from whatever boot state, an execution context is blocked at a
/// semaphore exactly where it waits in its queue. It waits once, at one semaphore alone, and only where
/// the counter is 0.
pub fn the_blocked_wait_at_their_semaphores()
    ensures blocked { (scenario : Scenario) (turns : List ℕ) (sm ec : ℕ)
        → (state_in (run (boot scenario) turns).contexts ec ≡ Some (Blocked sm)) ↔ (waits (run (boot scenario) turns).semaphores sm ec ≡ true) }
    ensures sound { (scenario : Scenario) (turns : List ℕ) → AreSound (run (boot scenario) turns).semaphores }
{}

/// The execution context that an up wakes is the first of those that wait at the semaphore.
pub fn the_first_is_woken()
    ensures { (k : KernelState) (ec sm first : ℕ) → deed k ec ≡ Ups sm (Some first)
        → (rest : List ℕ) × ((semaphore k.semaphores sm).waiting ≡ first ∷ rest) }
{}
