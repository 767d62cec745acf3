//! Strings one after the other, and the end of each.
ghost use Rattle.std.specs.Prelude.{IfOk, List, [], length, map, ℕ, ◌++◌, ◌∷◌, ◌≡◌};
ghost use Rattle.pep440_calls.specs.Statuses.{Joins};

use std::alloc::{AllocError, Global};

// Strings one after the other, and the end of each.
#[derive(Drop)]
pub(crate) struct JoinedStrings {
    pub(crate) bytes: Vec<u8>,
    pub(crate) ends: Vec<usize>,
}

impl JoinedStrings {
    // No string, with room for the ends of so many.
    pub(crate) fn with_capacity(alloc: Global, count: usize) -> Result<JoinedStrings, AllocError>
        ensures { IfOk result (λ joined. Joins [] joined.bytes.items joined.ends.items) }
    {
        Ok(JoinedStrings {
            bytes: Vec::new(alloc),
            ends: Vec::with_capacity(alloc, count)?,
        })
    }

    // One more string.
    #[inline(always)]
    pub(crate) fn push(&mut self, string: &[u8]) -> Result<(), AllocError>
        ensures bytes { IfOk result (λ _. self.new.bytes.items ≡ self.old.bytes.items ++ string.now) }
        ensures ends { IfOk result (λ _. self.new.ends.items ≡ self.old.ends.items ++ length self.new.bytes.items ∷ []) }
    {
        self.bytes.extend_from_slice(string)?;
        self.ends.push(self.bytes.len())?;
        Ok(())
    }

    // The strings, as they lie.
    pub(crate) fn split(&self, alloc: Global) -> Result<Vec<&[u8]>, AllocError>
        requires { (strings : List (List ℕ)) × Joins strings self.now.bytes.items self.now.ends.items }
        ensures { (strings : List (List ℕ)) → Joins strings self.now.bytes.items self.now.ends.items
            → IfOk result (λ found. map (λ s. s.now) found.items ≡ strings) }
    {
        let mut found = Vec::with_capacity(alloc, self.ends.len())?;
        let mut left = self.bytes.as_slice();
        let mut ends = self.ends.as_slice();
        let mut start = 0;
        while let Some((end, later)) = ends.split_first() {
            let (string, rest) = left.split_at(*end - start);
            found.push(string)?;
            left = rest;
            ends = later;
            start = *end;
        }
        Ok(found)
    }
}
