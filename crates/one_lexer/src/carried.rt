//! The bytes of an input that are given and not taken yet.
ghost use Rattle.std.specs.Prelude.{◌≡◌, ◌≤◌, ◌-◌, ◌++◌, [], OnErr, OnOk, drop, length, vec_len};
ghost use Rattle.one_lexer.specs.Reading.{last_of};

use dk_model::NoMemory;
use std::alloc::Global;
use std::marker::Model;

/// The bytes of an input that are given and not taken yet, in one piece.
#[derive(Drop)]
pub struct Carried {
    bytes: Vec<u8>,
    taken: usize,
}

impl Model for Carried {
    ghost use Rattle.std.specs.Prelude.{ℕ, ◌≤◌, List, drop, length};

    ghost Value = { List ℕ };

    ghost view = { λ c. drop c.taken c.bytes.items };

    ghost invariant = { λ c. c.taken ≤ length c.bytes.items };
}

// Lets the first bytes go.
fn remove_front(bytes: &mut Vec<u8>, count: usize)
    requires { count ≤ vec_len bytes.old }
    ensures { bytes.new.items ≡ drop count bytes.old.items }
{
    let all = bytes.len();
    bytes.as_mut_slice().copy_within(count..all, 0);
    bytes.truncate(all - count);
}

impl Carried {
    /// None. Takes no memory.
    pub fn new(alloc: Global) -> Carried
        ensures { result ≡ [] }
    {
        Carried {
            bytes: Vec::new(alloc),
            taken: 0,
        }
    }

    pub fn bytes(&self) -> &[u8]
        ensures { result.now ≡ self.now }
    {
        let (_, rest) = self.bytes.as_slice().split_at(self.taken);
        rest
    }

    /// A piece comes behind them. Without memory nothing changes.
    pub fn put(&mut self, piece: &[u8]) -> Result<(), NoMemory>
        ensures ok { OnOk result (self.new ≡ self.old ++ piece.now) }
        ensures err { OnErr result (self.new ≡ self.old) }
    {
        if self.taken > 0 {
            remove_front(&mut self.bytes, self.taken);
            self.taken = 0;
        }
        self.bytes.extend_from_slice(piece)?;
        Ok(())
    }

    /// All but the last so many are taken.
    pub fn keep(&mut self, left: usize)
        requires { left ≤ length self.old }
        ensures { self.new ≡ last_of left self.old }
    {
        self.taken = self.bytes.len() - left;
    }
}
