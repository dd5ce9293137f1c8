ghost use Rattle.std.specs.Prelude.{◌≡◌, ◌<◌, ◌^◌, Ok, IfOk};
ghost use Rattle.rv_model.specs.Registers.{Registers, reg};
ghost use Rattle.nova_calls.specs.Hypercalls.{call_of};
ghost use Rattle.nova_calls.specs.Numbers.{number_of};
ghost use Rattle.nova_calls.specs.SoundCalls.{IsSoundCall};

use crate::call::Call;

/// Arguments of a call that registers are read as are in their ranges, where x13 is a word.
pub fn calls_that_are_read()
    ensures { (r : Registers) → reg r 13 < 2 ^ 32 → IfOk (call_of r) IsSoundCall }
{}

/// The call that registers are read as has the number in x17.
pub fn calls_have_their_numbers()
    ensures { (r : Registers) (c : Call) → call_of r ≡ Ok c → number_of c ≡ reg r 17 }
{}
