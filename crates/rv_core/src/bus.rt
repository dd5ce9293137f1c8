ghost use Rattle.std.specs.Prelude.{◌≡◌, ◌<◌, ◌*◌, ◌%◌, ◌^◌, ◌⊎◌, ℕ, Bool, Option, IfSome};
ghost use Rattle.std.specs.Bool.{OnTrue, OnFalse};
ghost use Rattle.rv_model.specs.Step.{Store};

/// The memory that a hart reaches, in bytes. A number of several bytes has its lowest byte at the
/// lowest address.
pub trait Bus {
    // What a bus comes to for a proof: a state that the calls read and change.
    ghost State: { Type 0 };

    ghost state: { Self → State };

    // The word to fetch at an address, the number to load at an address in a width, or nothing.
    ghost fetched: { State → ℕ → Option ℕ };

    ghost loaded: { State → ℕ → ℕ → Option ℕ };

    // Whether a store at an address in a width is taken, and the state that a taken one leaves.
    ghost takes: { State → ℕ → ℕ → Bool };

    ghost stored: { Store → State → State };

    // There is room for one more store.
    ghost room: { State → Type 0 };

    /// The word at `addr`, which may be executed, or nothing. The state stays as it was.
    fn fetch(&mut self, addr: u32) -> Option<u32>
        requires { addr % 4 ≡ 0 }
        ensures gives { result ≡ fetched (state self.old) addr }
        ensures keeps { state self.new ≡ state self.old };

    /// The number in the `width` bytes, 1, 2 or 4, at `addr`, which may be read, or nothing. The state stays as it was.
    fn load(&mut self, addr: u32, width: u32) -> Option<u32>
        requires width { (width ≡ 1) ⊎ ((width ≡ 2) ⊎ (width ≡ 4)) }
        requires aligned { addr % width ≡ 0 }
        ensures gives { result ≡ loaded (state self.old) addr width }
        ensures fits { IfSome result (λ n. n < 2 ^ (8 * width)) }
        ensures keeps { state self.new ≡ state self.old };

    /// Puts `value` into the `width` bytes, 1, 2 or 4, at `addr`, which may be written, and says whether it
    /// did. A store that is refused leaves the state as it was.
    fn store(&mut self, addr: u32, width: u32, value: u32) -> bool
        requires width { (width ≡ 1) ⊎ ((width ≡ 2) ⊎ (width ≡ 4)) }
        requires aligned { addr % width ≡ 0 }
        requires fits { value < 2 ^ (8 * width) }
        requires room { room (state self.old) }
        ensures gives { result ≡ takes (state self.old) addr width }
        ensures taken { let store : Store = record { address = addr; width = width; value = value } in
            OnTrue result (state self.new ≡ stored store (state self.old)) }
        ensures refused { OnFalse result (state self.new ≡ state self.old) };
}
