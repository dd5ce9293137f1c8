// Files by name.
ghost use Rattle.std.specs.Prelude.{◌≡◌, ℕ, ◌^◌, ◌<◌, ◌≤◌, List, length, take, Option, IsSome, IfSome, IfOk, OnOk, OnErr};
ghost use Rattle.std.specs.FinMap.{get};
ghost use Rattle.nova_io.specs.Faults.{Rose, NeverFalls, Stay, OthersStay};
ghost use Rattle.nova_io.specs.Fetched.{Gave, FetchFailed, IsPiece};
ghost use Rattle.nova_io.specs.Files.{Files, bytes_of, with_appended};
ghost use Rattle.nova_io.specs.Taken.{TookFor, TakeFailedFor};

use crate::faults::Failed;

/// Files by name, read and lengthened in pieces.
///
/// A depot may tell its files, as one in memory does, or not, as one over real files. It counts its faults by kind and
/// by name, and no count ever falls.
pub trait Depot {
    /// The files, where the depot tells them.
    ghost files: { Self → Option Files };

    /// How many fetches of a name failed. A depot may tell one number for every name.
    ghost fetch_faults: { Self → List ℕ → ℕ };

    /// How many appends to a name failed. A depot may tell one number for every name.
    ghost append_faults: { Self → List ℕ → ℕ };

    /// What a fetch gave, and which depot it left. A depot that says nothing of it leaves this out, and the next three
    /// too.
    ghost gave: { Gave Self } = { λ _ _ _ _ _ _. Unit {0} };

    /// Which depot a fetch that failed left.
    ghost fetch_failed: { FetchFailed Self } = { λ _ _ _ _ _. Unit {0} };

    /// How much an append took, and which depot it left.
    ghost took: { TookFor Self } = { λ _ _ _ _ _. Unit {0} };

    /// Which depot an append that failed left.
    ghost append_failed: { TakeFailedFor Self } = { λ _ _ _ _. Unit {0} };

    /// Fetches bytes of the file `name` from `at` on, puts them to the front of `buf`, and says how many came.
    ///
    /// None come only at the end of the file, or where the buffer is empty. What the rest of the buffer holds
    /// afterwards is left open. A name that isn't there is a fault. The answer is Failed only where the count of failed
    /// fetches of this name rose. No bytes that are held change, and no count but that of failed fetches of this name.
    fn fetch(&mut self, name: &str, at: u64, buf: &mut [u8]) -> Result<usize, Failed>
        requires { at < 2 ^ 62 }
        ensures within { IfOk result (λ count. count ≤ length buf.new) }
        ensures there { OnOk result (IfSome (files self.old) (λ held. IsSome (get held name.now))) }
        ensures piece { IfOk result (λ count. IfSome (files self.old) (λ held.
            IsPiece (bytes_of held name.now) at (length buf.new) (take count buf.new))) }
        ensures gave { IfOk result (λ count. gave self.old name.now at (length buf.new) (take count buf.new) self.new) }
        ensures failed { OnErr result (Rose (fetch_faults self.old name.now) (fetch_faults self.new name.now)) }
        ensures fetch_failed { OnErr result (fetch_failed self.old name.now at (length buf.new) self.new) }
        ensures same { files self.new ≡ files self.old }
        ensures fetches { NeverFalls (fetch_faults self.old) (fetch_faults self.new) }
        ensures others { OthersStay fetch_faults name.now self.old self.new }
        ensures appends { Stay (append_faults self.old) (append_faults self.new) };

    /// Appends `bytes` to the file `name`, from the first on, and says how many of them it took.
    ///
    /// To take none of a piece that isn't empty is a fault. The answer is Failed only where the count of failed appends
    /// to this name rose, and then all bytes are as before. No other name's bytes ever change, and no count but that of
    /// failed appends to this name.
    fn append(&mut self, name: &str, bytes: &[u8]) -> Result<usize, Failed>
        ensures within { IfOk result (λ count. count ≤ length bytes.now) }
        ensures progress { IfOk result (λ count. count ≡ 0 → length bytes.now ≡ 0) }
        ensures taken { IfOk result (λ count. files self.new ≡ with_appended (files self.old) name.now (take count bytes.now)) }
        ensures took { IfOk result (λ count. took self.old name.now bytes.now count self.new) }
        ensures failed { OnErr result (Rose (append_faults self.old name.now) (append_faults self.new name.now)) }
        ensures append_failed { OnErr result (append_failed self.old name.now bytes.now self.new) }
        ensures same { OnErr result (files self.new ≡ files self.old) }
        ensures fetches { Stay (fetch_faults self.old) (fetch_faults self.new) }
        ensures others { OthersStay append_faults name.now self.old self.new }
        ensures appends { NeverFalls (append_faults self.old) (append_faults self.new) };
}
