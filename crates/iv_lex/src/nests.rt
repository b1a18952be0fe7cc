ghost use Rattle.std.specs.Prelude.{◌≡◌, ◌≤◌, ◌<◌, ◌+◌, ◌-◌, ◌^◌, length, IfSome};
ghost use Rattle.iv_lex.specs.Form.{closing, depth_after, front, is_last, nested_from, opening};

use crate::forms::{spells, starts_with};
use crate::letters::{Letter, rest_from};

/// What nests.
#[derive(Clone, Copy, Debug, PartialEq, Eq)]
pub enum Nest {
    /// `(* .. *)`
    Comment,
    /// `\<open> .. \<close>`, or U+2039 .. U+203A: a cartouche may open in one spelling and close in the other.
    Cartouche,
}

impl Nest {
    /// How many letters an opening takes at the front, or 0 where none stands there.
    pub(crate) fn opening(self, letters: &[Letter]) -> usize
        ensures length { result ≡ opening self letters.now }
        ensures within { result ≤ length letters.now }
    {
        match self {
            Nest::Comment if spells(b"(*".as_slice(), letters) => 2,
            Nest::Cartouche if spells(b"\\<open>".as_slice(), letters) => 7,
            Nest::Cartouche if starts_with(letters, '\u{2039}') => 1,
            _ => 0,
        }
    }

    /// How many letters a closing takes at the front, or 0 where none stands there.
    pub(crate) fn closing(self, letters: &[Letter]) -> usize
        ensures length { result ≡ closing self letters.now }
        ensures within { result ≤ length letters.now }
    {
        match self {
            Nest::Comment if spells(b"*)".as_slice(), letters) => 2,
            Nest::Cartouche if spells(b"\\<close>".as_slice(), letters) => 8,
            Nest::Cartouche if starts_with(letters, '\u{203A}') => 1,
            _ => 0,
        }
    }

    /// How many letters the bracket at the front takes, or the letter where no bracket stands there.
    pub(crate) fn front(self, letters: &[Letter]) -> usize
        requires { 0 < length letters.now }
        ensures length { result ≡ front self letters.now }
        ensures within { result ≤ length letters.now }
        ensures some { 0 < result }
    {
        let opening = self.opening(letters);
        let closing = self.closing(letters);
        if opening > 0 {
            opening
        } else if closing > 0 {
            closing
        } else {
            1
        }
    }

    /// How many brackets stand open behind the front, where `depth` stand open before it.
    pub(crate) fn depth_after(self, depth: usize, letters: &[Letter]) -> usize
        requires { depth < 2 ^ 64 - 1 }
        ensures depth { result ≡ depth_after self depth letters.now }
        ensures one_more { result ≤ depth + 1 }
    {
        if self.opening(letters) > 0 {
            depth + 1
        } else if self.closing(letters) > 0 {
            depth.saturating_sub(1)
        } else {
            depth
        }
    }

    /// Whether the front closes the only bracket that stands open.
    pub(crate) fn is_last(self, depth: usize, letters: &[Letter]) -> bool
        requires { depth < 2 ^ 64 - 1 }
        ensures { result ≡ is_last self depth letters.now }
    {
        self.closing(letters) > 0 && self.depth_after(depth, letters) == 0
    }
}

/// How many letters go from the opening at the front to its closing, both among them. `None` where it isn't closed.
pub(crate) fn nested_length(nest: Nest, letters: &[Letter]) -> Option<usize>
    ensures length { result ≡ nested_from nest 0 0 letters.now }
    ensures within { IfSome result (λ n. n ≤ length letters.now) }
    ensures some { IfSome result (λ n. 0 < n) }
{
    let mut depth = 0;
    let mut at = 0;
    while at < letters.len() {
        let rest = rest_from(letters, at);
        let front = nest.front(rest);
        if nest.is_last(depth, rest) {
            return Some(at + front);
        }
        depth = nest.depth_after(depth, rest);
        at += front;
    }
    None
}
