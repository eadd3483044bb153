//! How names are hashed: by their bytes, one by one.
//!
//! A slice of bytes is written to a hasher as its length, in eight bytes, and then each byte by itself. Names of two lengths
//! differ in their bytes already, so the length isn't taken in.
ghost use Rattle.scope_terms.specs.Hashing.{taken_in};
ghost use Rattle.std.specs.Hash.FoldHasher.{finish};

use std::hash::{BuildHasher, FoldHasher, Hasher};

/// A hasher of names, as it begins and on its way.
#[derive(Clone, Copy)]
pub struct NameHasher {
    so_far: FoldHasher,
}

impl NameHasher {
    pub(crate) fn new() -> NameHasher {
        NameHasher {
            so_far: FoldHasher::default(),
        }
    }
}

impl Hasher for NameHasher {
    ghost write = { taken_in };

    ghost finish = { λ h. finish h.so_far };

    fn finish(&self) -> u64 {
        self.so_far.finish()
    }

    fn write(&mut self, bytes: &[u8]) {
        if bytes.len() != 8 {
            self.so_far.write(bytes);
        }
    }
}

impl BuildHasher for NameHasher {
    type Hasher = NameHasher;

    ghost build_hasher = { λ h. h };

    fn build_hasher(&self) -> NameHasher {
        *self
    }
}
