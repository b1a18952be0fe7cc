//! The delimiters and the declared symbols, found by longest match.
ghost use Rattle.std.specs.Prelude.{◌≡◌, ℕ, ◌≤◌, ◌<◌, ◌+◌, ◌^◌, [], ◌∷◌, ◌++◌, length, take, true, nat_eq, unwrap_or, IsTrue, ◌↔◌, IfOk, IfErr, OnOk, OnErr};
ghost use Rattle.indexmap.specs.IndexMap.{get};
ghost use Rattle.iv_text.specs.declared.want.Want.TheVariants.{Memory};
ghost use Rattle.iv_grammar.specs.Symbol.{Table, IsLongestSymbol};
ghost use Rattle.iv_grammar.specs.Chain.{begins, starts_by, count_of, table_of, AreChained, IsChain};

use crate::sign::Sign;
use crate::words::first_items;
use indexmap::IndexMap;
use iv_text::{Mem, Text, Want};
use std::alloc::Global;
use std::marker::Model;

/// A text, what it is to the grammar, and how many entries there were when the last before it was entered whose text begins
/// with the same character: 0 where there is none.
#[derive(Drop)]
pub struct Entry {
    /// The text.
    pub text: Text,
    /// What it is to the grammar.
    pub sign: Sign,
    /// Where the chain goes on.
    pub before: usize,
}

/// Texts with what they are to the grammar, in order; of two equal texts the first counts. Contracts see the list of its
/// entries. A look-up compares the texts that begin with one character alone.
pub struct Symbols {
    entries: Vec<Entry>,
    latest: IndexMap<char, usize>,
}

// By hand, so that a caller's proof has one call where symbols end.
impl Drop for Symbols {
    fn drop(self) {
        let Symbols {
            entries: _entries,
            latest: _latest,
        } = self;
    }
}

impl Model for Symbols {
    ghost use Rattle.std.specs.Prelude.{List, ℕ, unwrap_or, nat_eq};
    ghost use Rattle.std.specs.Coded.{coded×, coded_list, coded_ℕ};
    ghost use Rattle.indexmap.specs.IndexMap.{get};
    ghost use Rattle.iv_grammar.specs.declared.sign.Sign.{Sign};
    ghost use Rattle.iv_grammar.specs.contracts.sign.Sign as a_sign;
    ghost use Rattle.iv_grammar.specs.Chain.{table_of, IsIndex};

    ghost Value = { List (List ℕ × Sign) };

    ghost coded = { coded_list (coded× (coded_list coded_ℕ) a_sign.the_row.coded) };

    ghost view = { λ s. table_of s.entries.items };

    ghost invariant = { λ s. IsIndex s.entries.items (λ c. unwrap_or (get nat_eq s.latest c) 0) };
}

/// How many characters were found.
pub(crate) fn count_of(best: Option<(usize, Sign)>) -> usize
    ensures { result ≡ count_of best }
{
    match best {
        None => 0,
        Some((count, _sign)) => count,
    }
}

/// Whether a word stands in front of a text.
pub(crate) fn stands(word: &[char], text: &[char]) -> bool
    ensures { IsTrue result ↔ (take (length word.now) text.now ≡ word.now) }
{
    if text.len() < word.len() {
        return false;
    }
    first_items(text, word.len()) == word
}

/// The better of what was found and an entry that was entered before it: the longer, or of two equal texts the earlier one.
pub(crate) fn better(
    best: Option<(usize, Sign)>,
    word: &[char],
    sign: Sign,
    text: &[char],
) -> Option<(usize, Sign)>
    ensures { (table : Table) → IsLongestSymbol table text.now best → IsLongestSymbol ((word.now, sign) ∷ table) text.now result }
{
    let count = word.len();
    if count == 0 {
        return best;
    }
    if count < count_of(best) {
        return best;
    }
    if !stands(word, text) {
        return best;
    }
    Some((count, sign))
}

/// The longest symbol at the front of a text that begins with this character, where `from` leads to the last entry with it.
pub(crate) fn longest_from(
    entries: &[Entry],
    from: usize,
    c: char,
    text: &[char],
) -> Option<(usize, Sign)>
    requires first { begins c text.now ≡ true }
    requires start { IsChain entries.now c from (length entries.now) }
    requires chained { AreChained entries.now }
    ensures { IsLongestSymbol (table_of entries.now) text.now result }
{
    let mut best = None;
    let mut at = from;
    while at > 0 {
        let entry = &entries[at - 1];
        best = better(best, entry.text.as_slice(), entry.sign, text);
        at = entry.before;
    }
    best
}

/// The first character of a text.
pub(crate) fn first_char(text: &[char]) -> Option<char>
    ensures { (d : ℕ) → begins d text.now ≡ starts_by result d }
{
    match text {
        [] => None,
        [c, ..] => Some(*c),
    }
}

/// How many entries there were when the last with this character was entered: 0 where there is none.
pub(crate) fn latest_of(latest: &IndexMap<char, usize>, c: char) -> usize
    ensures { result ≡ unwrap_or (get nat_eq latest.now c) 0 }
{
    match latest.get(&c) {
        None => 0,
        Some(count) => *count,
    }
}

impl Symbols {
    /// No symbols.
    pub fn empty(alloc: Global) -> Symbols
        ensures { result ≡ [] }
    {
        Symbols {
            entries: Vec::new(alloc),
            latest: IndexMap::new(alloc),
        }
    }

    /// The longest symbol at the front of a text: how many characters it takes, and what it is to the grammar. `None` exactly
    /// where no symbol stands there. Takes no memory.
    pub fn longest(&self, text: &[char]) -> Option<(usize, Sign)>
        ensures { IsLongestSymbol self.now text.now result }
    {
        match text {
            [] => None,
            [c, ..] => longest_from(&self.entries, latest_of(&self.latest, *c), *c, text),
        }
    }

    /// Puts a text at the end. Fails where memory runs out, and the symbols are then as before.
    pub fn push(&mut self, text: Text, sign: Sign) -> Mem<()>
        ensures ok { OnOk result (self.new ≡ self.old ++ (text, sign) ∷ []) }
        ensures err { OnErr result (self.new ≡ self.old) }
        ensures memory { IfErr result (λ w. w ≡ Memory) }
    {
        match first_char(text.as_slice()) {
            None => {
                self.entries.push(Entry {
                    text,
                    sign,
                    before: 0,
                })?;
                Ok(())
            }
            Some(c) => {
                let before = latest_of(&self.latest, c);
                self.entries.push(Entry { text, sign, before })?;
                match self.latest.insert(c, self.entries.len()) {
                    Ok(_old) => Ok(()),
                    Err(_full) => {
                        self.entries.pop();
                        Err(Want::Memory)
                    }
                }
            }
        }
    }
}
