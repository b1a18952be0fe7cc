//! The lines that report theorems and refused commands.
ghost use Rattle.std.specs.Prelude.{◌≡◌, ◌++◌, if◌then◌else◌, codes, OnOk, IfOk, IfErr};
ghost use Rattle.std.specs.Option.{option_copied};
ghost use Rattle.iv_text.specs.declared.want.Want.TheVariants.{Memory};
ghost use Rattle.iv_run.specs.Report.{is_constant, is_arrow, enclosed, variable_text, prop_text, theorem_head, theorem_line, mode_text, cause_text, refusal_line, count_line};

use crate::refusal::{Mode, Refusal};
use iv_report::text::{
    push_ascii, push_char, push_char_if, push_decimal, push_name, push_place, push_text,
};
use iv_term::{Head, Term, Terms};
use iv_text::{Mem, Text};
use std::alloc::Global;

/// Whether a head is a constant.
fn is_constant(head: &Head) -> bool
    ensures { result ≡ is_constant head.now }
{
    match head {
        Head::Const(_c, _a) => true,
        _ => false,
    }
}

/// Whether a proposition is an implication.
fn is_arrow(prop: &Term) -> bool
    ensures { result ≡ is_arrow prop.now }
{
    match prop {
        Term::Abs(_a, _b) => false,
        Term::Spine(head, _ts) => is_constant(head),
    }
}

/// Writes a variable, and nothing for any other head. Fails where memory runs out.
fn push_variable(line: &mut Vec<char>, head: &Head) -> Mem<()>
    ensures ok { OnOk result (line.new.items ≡ line.old.items ++ variable_text head.now) }
    ensures memory { IfErr result (λ w. w ≡ Memory) }
{
    match head {
        Head::Free(name, _a) => {
            push_ascii(line, b"PROP ")?;
            push_name(line, name)
        }
        Head::Schematic(name, _a) => {
            push_ascii(line, b"PROP ?")?;
            push_name(line, name)
        }
        _ => Ok(()),
    }
}

/// Writes a premise, in parentheses where it is an implication. Fails where memory runs out.
#[cycle(push_prop)]
fn push_premise(line: &mut Vec<char>, premise: &Term) -> Mem<()>
    ensures ok { OnOk result (line.new.items ≡ line.old.items ++ enclosed (is_arrow premise.now) (prop_text premise.now)) }
    ensures memory { IfErr result (λ w. w ≡ Memory) }
{
    let nested = is_arrow(premise);
    push_char_if(line, nested, '(')?;
    push_prop(line, premise)?;
    push_char_if(line, nested, ')')
}

/// Writes a proposition: premise by premise, and its conclusion. Fails where memory runs out.
#[cycle(push_prop)]
fn push_prop(line: &mut Vec<char>, prop: &Term) -> Mem<()>
    ensures ok { OnOk result (line.new.items ≡ line.old.items ++ prop_text prop.now) }
    ensures memory { IfErr result (λ w. w ≡ Memory) }
{
    let mut left = prop;
    while let Term::Spine(head, sides) = left {
        if !is_constant(head) {
            return push_variable(line, head);
        }
        let Terms::Cons(premise, rest) = sides else {
            return Ok(());
        };
        push_premise(line, premise.get())?;
        let Terms::Cons(conclusion, _more) = rest.get() else {
            return Ok(());
        };
        push_ascii(line, b" ==> ")?;
        left = conclusion.get();
    }
    Ok(())
}

/// Writes what a theorem's line begins with. Fails where memory runs out.
fn push_theorem_head(line: &mut Vec<char>, name: Option<&Text>) -> Mem<()>
    ensures ok { OnOk result (line.new.items ≡ line.old.items ++ theorem_head (option_copied name.entry)) }
    ensures memory { IfErr result (λ w. w ≡ Memory) }
{
    match name {
        None => push_ascii(line, b"theorem: "),
        Some(name) => {
            push_ascii(line, b"theorem ")?;
            push_text(line, name)?;
            push_ascii(line, b": ")
        }
    }
}

/// The line that reports a theorem, with its name if it has one, and a line feed at its end. Fails where
/// memory runs out.
pub fn theorem_line(alloc: Global, name: Option<&Text>, prop: &Term) -> Mem<Text>
    ensures ok { IfOk result (λ t. t ≡ theorem_line (option_copied name.entry) prop.now) }
    ensures memory { IfErr result (λ w. w ≡ Memory) }
{
    let mut line = Vec::new(alloc);
    push_theorem_head(&mut line, name)?;
    push_prop(&mut line, prop)?;
    push_char(&mut line, '\n')?;
    Text::from_vec(alloc, line)
}

/// How a mode is called.
fn mode_text(mode: Mode) -> &'static [u8]
    ensures { result.now ≡ mode_text mode }
{
    match mode {
        Mode::Start => b"start",
        Mode::Theory => b"theory",
        Mode::Prove => b"prove",
        Mode::Ended => b"ended",
    }
}

/// Writes why a command was refused, at this line and column. Fails where memory runs out.
fn push_cause(out: &mut Vec<char>, line: u32, column: u32, refusal: &Refusal) -> Mem<()>
    ensures ok { OnOk result (out.new.items ≡ out.old.items ++ cause_text line column refusal.now) }
    ensures memory { IfErr result (λ w. w ≡ Memory) }
{
    match refusal {
        Refusal::Syntax(_at) => {
            push_ascii(out, b"syntax ")?;
            push_place(out, line, column)
        }
        Refusal::Mode(mode) => {
            push_ascii(out, b"mode ")?;
            push_ascii(out, mode_text(*mode))
        }
        Refusal::Name(name) => {
            push_ascii(out, b"name ")?;
            push_text(out, name)
        }
        Refusal::Empty => push_ascii(out, b"empty"),
        Refusal::Memory => Ok(()),
        Refusal::Number => Ok(()),
    }
}

/// Writes that a command was refused: the line and column of its first token, its word, and why, with those of the
/// refusal. Fails where memory runs out.
fn push_refusal(
    out: &mut Vec<char>,
    at: (u32, u32),
    word: &Text,
    own: (u32, u32),
    refusal: &Refusal,
) -> Mem<()>
    ensures ok { OnOk result (out.new.items ≡ out.old.items ++ refusal_line at.0 at.1 word.now own.0 own.1 refusal.now) }
    ensures memory { IfErr result (λ w. w ≡ Memory) }
{
    push_ascii(out, b"refused ")?;
    push_place(out, at.0, at.1)?;
    push_char(out, ' ')?;
    push_text(out, word)?;
    push_char(out, ' ')?;
    push_cause(out, own.0, own.1, refusal)?;
    push_char(out, '\n')
}

/// The line that reports that a command was refused, with a line feed at its end: the 1-based line and
/// column of its first token, its word, and why, with those of the refusal. Fails where memory runs out.
pub fn refusal_line(
    alloc: Global,
    at: (u32, u32),
    word: &Text,
    own: (u32, u32),
    refusal: &Refusal,
) -> Mem<Text>
    ensures ok { IfOk result (λ t. t ≡ refusal_line at.0 at.1 word.now own.0 own.1 refusal.now) }
    ensures memory { IfErr result (λ w. w ≡ Memory) }
{
    let mut out = Vec::new(alloc);
    push_refusal(&mut out, at, word, own, refusal)?;
    Text::from_vec(alloc, out)
}

/// How a document ends: whether `end` was executed.
fn end_text(ended: bool) -> &'static [u8]
    ensures { result.now ≡ (if ended then codes "ended" else codes "open") }
{
    if ended { b"ended" } else { b"open" }
}

/// Writes how many theorems and refusals there are, and whether the document has ended. Fails where memory runs out.
fn push_counts(line: &mut Vec<char>, theorems: u64, refusals: u64, ended: bool) -> Mem<()>
    ensures ok { OnOk result (line.new.items ≡ line.old.items ++ count_line theorems refusals ended) }
    ensures memory { IfErr result (λ w. w ≡ Memory) }
{
    push_ascii(line, b"theorems ")?;
    push_decimal(line, theorems)?;
    push_ascii(line, b" refusals ")?;
    push_decimal(line, refusals)?;
    push_char(line, ' ')?;
    push_ascii(line, end_text(ended))?;
    push_char(line, '\n')
}

/// The line that counts theorems and refusals, and says whether the document has ended, with a line feed at its
/// end. Fails where memory runs out.
pub fn count_line(alloc: Global, theorems: u64, refusals: u64, ended: bool) -> Mem<Text>
    ensures ok { IfOk result (λ t. t ≡ count_line theorems refusals ended) }
    ensures memory { IfErr result (λ w. w ≡ Memory) }
{
    let mut line = Vec::new(alloc);
    push_counts(&mut line, theorems, refusals, ended)?;
    Text::from_vec(alloc, line)
}
