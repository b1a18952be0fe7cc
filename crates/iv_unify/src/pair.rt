//! Two terms that are to become equal.
use iv_term::{Term, Types};

/// Two terms under the same bound variables.
pub struct Pair {
    /// The types of the bound variables, the innermost first.
    pub bounds: Types,
    /// One of the terms.
    pub left: Term,
    /// The other one.
    pub right: Term,
}

impl Drop for Pair {
    fn drop(self) {
        let Pair {
            bounds: _bounds,
            left: _left,
            right: _right,
        } = self;
    }
}
