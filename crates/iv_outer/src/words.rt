// Written by tools/outer_words.py. Do not edit.
//! The words of the outer syntax with their classes.
ghost use Rattle.std.specs.Prelude.{◌≡◌};
ghost use Rattle.iv_outer.specs.Words.{words, delimiters, signs, plain};

use iv_recogniser::Class;

/// A text with its class.
#[derive(Clone, Copy)]
pub struct Word {
    /// The text.
    pub text: &'static str,
    /// Its class.
    pub class: Class,
}

const WORDS: &[Word] = &[
    Word {
        text: "theory",
        class: Class::Theory,
    },
    Word {
        text: "end",
        class: Class::End,
    },
    Word {
        text: "chapter",
        class: Class::Chapter,
    },
    Word {
        text: "section",
        class: Class::Section,
    },
    Word {
        text: "subsection",
        class: Class::Subsection,
    },
    Word {
        text: "subsubsection",
        class: Class::Subsubsection,
    },
    Word {
        text: "paragraph",
        class: Class::Paragraph,
    },
    Word {
        text: "subparagraph",
        class: Class::Subparagraph,
    },
    Word {
        text: "text",
        class: Class::Prose,
    },
    Word {
        text: "txt",
        class: Class::Txt,
    },
    Word {
        text: "typedecl",
        class: Class::Typedecl,
    },
    Word {
        text: "consts",
        class: Class::Consts,
    },
    Word {
        text: "judgment",
        class: Class::Judgment,
    },
    Word {
        text: "axiomatization",
        class: Class::Axiomatization,
    },
    Word {
        text: "lemmas",
        class: Class::Lemmas,
    },
    Word {
        text: "declare",
        class: Class::Declare,
    },
    Word {
        text: "named_theorems",
        class: Class::NamedTheorems,
    },
    Word {
        text: "method",
        class: Class::Method,
    },
    Word {
        text: "lemma",
        class: Class::Lemma,
    },
    Word {
        text: "theorem",
        class: Class::Theorem,
    },
    Word {
        text: "corollary",
        class: Class::Corollary,
    },
    Word {
        text: "proposition",
        class: Class::Proposition,
    },
    Word {
        text: "fix",
        class: Class::Fix,
    },
    Word {
        text: "assume",
        class: Class::Assume,
    },
    Word {
        text: "presume",
        class: Class::Presume,
    },
    Word {
        text: "define",
        class: Class::Define,
    },
    Word {
        text: "note",
        class: Class::Note,
    },
    Word {
        text: "let",
        class: Class::Let,
    },
    Word {
        text: "next",
        class: Class::Next,
    },
    Word {
        text: "then",
        class: Class::Then,
    },
    Word {
        text: "from",
        class: Class::From,
    },
    Word {
        text: "with",
        class: Class::With,
    },
    Word {
        text: "have",
        class: Class::Have,
    },
    Word {
        text: "show",
        class: Class::Show,
    },
    Word {
        text: "hence",
        class: Class::Hence,
    },
    Word {
        text: "thus",
        class: Class::Thus,
    },
    Word {
        text: "obtain",
        class: Class::Obtain,
    },
    Word {
        text: "also",
        class: Class::Also,
    },
    Word {
        text: "moreover",
        class: Class::Moreover,
    },
    Word {
        text: "finally",
        class: Class::Finally,
    },
    Word {
        text: "ultimately",
        class: Class::Ultimately,
    },
    Word {
        text: "apply",
        class: Class::Apply,
    },
    Word {
        text: "using",
        class: Class::Using,
    },
    Word {
        text: "defer",
        class: Class::Defer,
    },
    Word {
        text: "prefer",
        class: Class::Prefer,
    },
    Word {
        text: "back",
        class: Class::Back,
    },
    Word {
        text: "proof",
        class: Class::Proof,
    },
    Word {
        text: "qed",
        class: Class::Qed,
    },
    Word {
        text: "by",
        class: Class::By,
    },
    Word {
        text: "done",
        class: Class::Done,
    },
    Word {
        text: "oops",
        class: Class::Oops,
    },
    Word {
        text: "and",
        class: Class::And,
    },
    Word {
        text: "assumes",
        class: Class::Assumes,
    },
    Word {
        text: "begin",
        class: Class::Begin,
    },
    Word {
        text: "declares",
        class: Class::Declares,
    },
    Word {
        text: "fixes",
        class: Class::Fixes,
    },
    Word {
        text: "for",
        class: Class::For,
    },
    Word {
        text: "imports",
        class: Class::Imports,
    },
    Word {
        text: "in",
        class: Class::In,
    },
    Word {
        text: "is",
        class: Class::Is,
    },
    Word {
        text: "methods",
        class: Class::Methods,
    },
    Word {
        text: "shows",
        class: Class::Shows,
    },
    Word {
        text: "uses",
        class: Class::Uses,
    },
    Word {
        text: "where",
        class: Class::Where,
    },
    Word {
        text: "OF",
        class: Class::OfFacts,
    },
    Word {
        text: "THEN",
        class: Class::ThenFact,
    },
    Word {
        text: "of",
        class: Class::OfTerms,
    },
    Word {
        text: "infix",
        class: Class::Infix,
    },
    Word {
        text: "infixl",
        class: Class::Infixl,
    },
    Word {
        text: "infixr",
        class: Class::Infixr,
    },
    Word {
        text: "binder",
        class: Class::Binder,
    },
    Word {
        text: "rule",
        class: Class::Rule,
    },
    Word {
        text: "erule",
        class: Class::Rule,
    },
    Word {
        text: "drule",
        class: Class::Rule,
    },
    Word {
        text: "frule",
        class: Class::Rule,
    },
    Word {
        text: "intro",
        class: Class::Rule,
    },
    Word {
        text: "elim",
        class: Class::Rule,
    },
    Word {
        text: "match",
        class: Class::Match,
    },
    Word {
        text: "premises",
        class: Class::Premises,
    },
    Word {
        text: "conclusion",
        class: Class::Conclusion,
    },
    Word {
        text: "cut",
        class: Class::Cut,
    },
];

const DELIMITERS: &[Word] = &[
    Word {
        text: "(",
        class: Class::Open,
    },
    Word {
        text: ")",
        class: Class::Close,
    },
    Word {
        text: "[",
        class: Class::Left,
    },
    Word {
        text: "]",
        class: Class::Right,
    },
    Word {
        text: ",",
        class: Class::Comma,
    },
    Word {
        text: ";",
        class: Class::Semicolon,
    },
    Word {
        text: ":",
        class: Class::Colon,
    },
    Word {
        text: "::",
        class: Class::Colons,
    },
    Word {
        text: "{",
        class: Class::LeftBrace,
    },
    Word {
        text: "}",
        class: Class::RightBrace,
    },
    Word {
        text: ".",
        class: Class::Dot,
    },
    Word {
        text: "..",
        class: Class::Dots,
    },
];

const SIGNS: &[Word] = &[
    Word {
        text: "=",
        class: Class::Equal,
    },
    Word {
        text: "=>",
        class: Class::Arrow,
    },
    Word {
        text: "|",
        class: Class::Bar,
    },
    Word {
        text: "\\<bar>",
        class: Class::CaseBar,
    },
    Word {
        text: "+",
        class: Class::Plus,
    },
    Word {
        text: "?",
        class: Class::Question,
    },
    Word {
        text: "!",
        class: Class::Exclamation,
    },
    Word {
        text: "-",
        class: Class::Minus,
    },
    Word {
        text: "_",
        class: Class::Dummy,
    },
];

/// The identifiers that are words of their own.
pub fn words() -> &'static [Word]
    ensures { plain result.now ≡ words }
{
    WORDS
}

/// The delimiters.
pub fn delimiters() -> &'static [Word]
    ensures { plain result.now ≡ delimiters }
{
    DELIMITERS
}

/// The symbols that a form has.
pub fn signs() -> &'static [Word]
    ensures { plain result.now ≡ signs }
{
    SIGNS
}
