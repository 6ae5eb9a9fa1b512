// Lines of text that the programs print, each made in a buffer of its own so that it is written in one call. What has no room is left out.
#![tactic(auto)]

ghost use Rattle.std.specs.Prelude.{◌≡◌, ℕ, ◌≤◌, ◌↔◌, List, [], ◌∷◌, ◌++◌, length, take, IsTrue};

use std::fmt;
use std::marker::Model;

// The text so far stands at the start of the buffer.
#[derive(Drop)]
pub struct Line<const N: usize> {
    bytes: [u8; N],
    len: usize,
}

// Clauses see the text alone.
impl<const N: usize> Model for Line<N> {
    ghost Value = { List ℕ };

    ghost view = { λ s. take s.len s.bytes };

    ghost invariant = { λ s. s.len ≤ N };
}

impl<const N: usize> Line<N> {
    pub fn new() -> Self
        ensures { result ≡ [] }
    {
        Line {
            bytes: [0; N],
            len: 0,
        }
    }

    // As much of a text as there is room for.
    pub fn of(text: &[u8]) -> Self
        ensures { result ≡ take N text.now }
    {
        let mut line = Self::new();
        line.push_bytes(text);
        line
    }

    pub fn len(&self) -> usize
        ensures text { result ≡ length self.now }
        ensures room { result ≤ N }
    {
        self.len
    }

    pub fn is_empty(&self) -> bool
        ensures { IsTrue result ↔ (self.now ≡ []) }
    {
        self.len == 0
    }

    pub fn as_bytes(&self) -> &[u8]
        ensures { result.now ≡ self.now }
    {
        &self.bytes[..self.len]
    }

    pub fn push(&mut self, b: u8)
        ensures { self.new ≡ take N (self.old ++ b ∷ []) }
    {
        if self.len < N {
            self.bytes[self.len] = b;
            self.len += 1;
        }
    }

    // Of text that may be no UTF-8, as a file's name may be.
    pub fn push_bytes(&mut self, text: &[u8])
        ensures { self.new ≡ take N (self.old ++ text.now) }
    {
        let n = text.len().min(N - self.len);
        let end = self.len + n;
        let bytes = &mut self.bytes[..];
        bytes[self.len..end].copy_from_slice(&text[..n]);
        self.len = end;
    }

    // The first n bytes alone, where there are more.
    pub fn truncate(&mut self, n: usize)
        ensures { self.new ≡ take n self.old }
    {
        self.len = self.len.min(n);
    }
}

impl<const N: usize> fmt::Write for Line<N> {
    fn write_str(&mut self, s: &str) -> fmt::Result {
        self.push_bytes(s.as_bytes());
        Ok(())
    }
}

// A word as the rules write words, `3FFh`: three digits for its ten bits, and four where a sheet has more there.
#[derive(Clone, Copy)]
pub struct Word(pub u16);

impl fmt::Display for Word {
    fn fmt<W: fmt::Write>(&self, f: &mut fmt::Formatter<W>) -> fmt::Result {
        write!(f, "{:03X}h", self.0)
    }
}
