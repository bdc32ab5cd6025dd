// A list of bytes in a fixed array.
ghost use Rattle.std.specs.Prelude.{◌≡◌, ◌+◌, ◌≤◌, ◌<◌, ℕ, List, [], ◌∷◌, length, take};
ghost use Rattle.map_print.specs.Print.{Wrote};

use std::marker::Model;

// What is printed: up to N bytes, of which `len` are printed.
#[derive(Drop)]
pub struct Page<const N: usize> {
    bytes: [u8; N],
    len: usize,
}

impl<const N: usize> Model for Page<N> {
    ghost Value = { List ℕ };

    ghost view = { λ p. take p.len p.bytes };

    ghost invariant = { λ p. p.len ≤ N };
}

impl<const N: usize> Page<N> {
    pub fn new() -> Self
        ensures { result ≡ [] }
    {
        Page {
            bytes: [0; N],
            len: 0,
        }
    }

    pub fn clear(&mut self)
        ensures { self.new ≡ [] }
    {
        self.len = 0;
    }

    pub fn as_bytes(&self) -> &[u8]
        ensures { result.now ≡ self.now }
    {
        &self.bytes[..self.len]
    }

    pub(crate) fn push(&mut self, b: u8)
        requires { length self.old < N }
        ensures { Wrote self.old (b ∷ []) self.new }
    {
        self.bytes[self.len] = b;
        self.len += 1;
    }

    pub(crate) fn extend(&mut self, bytes: &[u8])
        requires { length self.old + length bytes.now ≤ N }
        ensures { Wrote self.old bytes.now self.new }
    {
        for b in bytes {
            self.push(*b);
        }
    }
}
