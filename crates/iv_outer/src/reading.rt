use iv_forms::Body;
use iv_text::{Pos, Text};

/// What a piece is read as.
#[derive(Drop)]
pub enum Reading {
    /// What the form says that reads it.
    Form(Body),
    /// No form reads it: where the first token begins that no form can go on with, or where the last token ends if the
    /// piece is the beginning of one that a form reads. A part with more than 400 levels is refused where it begins.
    Unreadable(Pos),
}

/// A command of a document.
#[derive(Drop)]
pub struct Command {
    /// Where its first token begins.
    pub at: Pos,
    /// Its command word, or `?` where it begins with none.
    pub word: Text,
    /// What it says.
    pub reading: Reading,
}
