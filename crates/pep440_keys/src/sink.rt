//! What the bytes of a key are appended to.
ghost use Rattle.std.specs.Prelude.{◌≡◌, ◌+◌, ◌++◌, ℕ, IsOk, OnOk, length};

use arrayvec::ArrayVec;
use std::alloc::AllocError;

/// Bytes that grow at their end: a `Vec`, or an `ArrayVec`, which never allocates.
pub trait KeySink {
    ghost use Rattle.std.specs.Prelude.{ℕ, List};

    ghost written: { Self → List ℕ };

    ghost has_capacity: { Self → ℕ → Type 0 };

    /// Appends the bytes. An error if there is too little capacity: of an `ArrayVec`, exactly then; of a `Vec`, if an allocation fails.
    fn append(&mut self, bytes: &[u8]) -> Result<(), AllocError>
        ensures appended { OnOk result (written self.new ≡ written self.old ++ bytes.now) }
        ensures fits { (more : ℕ) → has_capacity self.old (length bytes.now + more) → IsOk result × has_capacity self.new more };
}

impl KeySink for Vec<u8> {
    ghost written = { λ v. v.items };

    ghost has_capacity = { λ _ _. ⊥ };

    #[inline(always)]
    fn append(&mut self, bytes: &[u8]) -> Result<(), AllocError> {
        self.extend_from_slice(bytes)
    }
}

impl<const N: usize> KeySink for ArrayVec<u8, N> {
    ghost use Rattle.std.specs.Prelude.{◌+◌, ◌≤◌, length};

    ghost written = { λ v. v.items };

    ghost has_capacity = { λ v more. length v.items + more ≤ N };

    #[inline(always)]
    fn append(&mut self, bytes: &[u8]) -> Result<(), AllocError> {
        match self.try_extend_from_slice(bytes) {
            Ok(()) => Ok(()),
            Err(_) => Err(AllocError),
        }
    }
}
