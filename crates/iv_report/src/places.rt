ghost use Rattle.std.specs.Prelude.{◌≡◌, ◌≤◌, ◌&&◌, List, ℕ, length};
ghost use Rattle.iv_report.specs.Place.{line_of, column_of, IsAt};

use crate::widths::width_of;
use iv_text::Pos;

/// The most bytes that a document may have: 4 MiB.
pub const LIMIT: usize = 4_194_304;

/// A place in a document with its line, which walks forward.
#[derive(Clone, Copy, Debug, PartialEq, Eq)]
pub struct Cursor {
    /// The place.
    pub at: Pos,
    /// Its 1-based line.
    pub line: u32,
    /// How many bytes stand before it on its line.
    pub before: u32,
    /// Whether these are all ASCII, so that each takes one column.
    pub narrow: bool,
}

impl Cursor {
    /// At the start of a document.
    pub fn start() -> Cursor
        ensures at { result.at.0 ≡ 0 }
        ensures place { (document : List ℕ) → IsAt document result }
    {
        Cursor {
            at: Pos(0),
            line: 1,
            before: 0,
            narrow: true,
        }
    }

    /// Walks forward to `to`, and says its line and its column, both 1-based. A column counts what a terminal shows. It takes time
    /// in the bytes walked, and, where the line has other bytes than ASCII before `to`, in those.
    pub fn advance(&mut self, document: &[u8], to: Pos) -> (u32, u32)
        requires small { length document.now ≤ LIMIT }
        requires inside { to.0 ≤ length document.now }
        requires forward { self.old.at.0 ≤ to.0 }
        requires place { IsAt document.now self.old }
        ensures line { result.0 ≡ line_of document.now to.0 }
        ensures column { result.1 ≡ column_of document.now to.0 }
        ensures at { self.new.at ≡ to }
        ensures place { IsAt document.now self.new }
    {
        self.walk(document, to);
        (self.line, self.column(document))
    }

    /// Walks forward to `to`.
    fn walk(&mut self, document: &[u8], to: Pos)
        requires small { length document.now ≤ LIMIT }
        requires inside { to.0 ≤ length document.now }
        requires forward { self.old.at.0 ≤ to.0 }
        requires place { IsAt document.now self.old }
        ensures at { self.new.at ≡ to }
        ensures place { IsAt document.now self.new }
    {
        let mut line = self.line;
        let mut before = self.before;
        let mut narrow = self.narrow;
        for at in self.at.0 as usize..to.0 as usize {
            if document[at] == b'\n' {
                line += 1;
                before = 0;
                narrow = true;
            } else {
                before += 1;
                narrow = both(narrow, document[at].is_ascii());
            }
        }
        *self = Cursor {
            at: to,
            line,
            before,
            narrow,
        };
    }

    /// The 1-based column of the place.
    fn column(&self, document: &[u8]) -> u32
        requires small { length document.now ≤ LIMIT }
        requires inside { self.now.at.0 ≤ length document.now }
        requires place { IsAt document.now self.now }
        ensures { result ≡ column_of document.now self.now.at.0 }
    {
        if self.narrow {
            return 1 + self.before;
        }
        let at = self.at.0 as usize;
        let line = &document[at - self.before as usize..at];
        1 + width_of(line) as u32
    }
}

/// Whether both hold.
fn both(a: bool, b: bool) -> bool
    ensures { result ≡ (a && b) }
{
    a && b
}
