//! Equal types and terms share their parts.
use crate::term::{Term, Terms};
use crate::typ::{Typ, Types};
use iv_text::{Copied, Mem};

impl Copied for Typ {
    fn copied(&self) -> Mem<Typ> {
        self.copy()
    }
}

impl Copied for Types {
    fn copied(&self) -> Mem<Types> {
        self.copy()
    }
}

impl Copied for Term {
    fn copied(&self) -> Mem<Term> {
        self.copy()
    }
}

impl Copied for Terms {
    fn copied(&self) -> Mem<Terms> {
        self.copy()
    }
}
