/// A read or a write failed. The source or the sink has counted it.
#[derive(Clone, Copy, Debug, PartialEq, Eq)]
pub struct Failed;
