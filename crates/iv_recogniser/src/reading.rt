ghost use Rattle.std.specs.Prelude.{◌≡◌, IfOk, IfErr, OnOk, ◌++◌, ◌∷◌, [], reverse};
ghost use Rattle.std.specs.List.{list_all};
ghost use Rattle.iv_text.specs.declared.want.Want.TheVariants.{Memory};
ghost use Rattle.iv_recogniser.specs.declared.part.Symbol.TheVariants.{Goes};
ghost use Rattle.iv_recogniser.specs.Table.{forms, plain};
ghost use Rattle.iv_recogniser.specs.Spell.{Judged};
ghost use Rattle.iv_recogniser.specs.Step.{behind, found, may_end, passes, Stepped, rest_of};

use crate::class::Class;
use crate::part::{Part, Symbol};
use crate::table::forms;
use iv_text::Mem;
use std::alloc::Global;

/// What is known of some classes.
#[derive(Clone, Copy, Debug, PartialEq, Eq)]
pub enum Verdict {
    /// They are read.
    Whole,
    /// More could follow that makes them read, and they aren't read.
    Cut,
    /// No form goes on with the class at this index; the classes before it are the beginning of some that are read.
    Refused(usize),
}

/// What stands behind the first symbol of a row, where that is a token of this class.
fn behind(row: &'static [Symbol], class: Class) -> Option<&'static [Symbol]>
    ensures { rest_of result ≡ behind row.now class }
{
    match row {
        [Symbol::Word(sort), rest @ ..] if sort.has(class) => Some(rest),
        _ => None,
    }
}

/// What stands behind the first symbol of the row that begins with this class.
fn found(rows: &'static [&'static [Symbol]], class: Class) -> Option<&'static [Symbol]>
    ensures { rest_of result ≡ found (plain rows.now) class }
{
    for row in rows {
        if let Some(rest) = behind(row, class) {
            return Some(rest);
        }
    }
    None
}

/// Whether the first row is empty.
fn may_end(rows: &'static [&'static [Symbol]]) -> bool
    ensures { result ≡ may_end (plain rows.now) }
{
    match rows {
        [] => false,
        [row, ..] => row.is_empty(),
    }
}

/// Puts a row on top of a stack.
fn push_row(stack: &mut Vec<Symbol>, row: &[Symbol]) -> Mem<()>
    ensures ok { OnOk result (reverse stack.new.items ≡ row.now ++ reverse stack.old.items) }
    ensures memory { IfErr result (λ w. w ≡ Memory) }
{
    for symbol in row.iter().rev().copied() {
        stack.push(symbol)?;
    }
    Ok(())
}

/// Reads one class: takes from the stack what it belongs to, and puts there what has to follow. Whether it can stand
/// here; where it can't, the stack is of no more use. Fails where memory runs out.
fn step(stack: &mut Vec<Symbol>, class: Class) -> Mem<bool>
    ensures ok { IfOk result (λ b. Stepped forms b (reverse stack.old.items) class (reverse stack.new.items)) }
    ensures memory { IfErr result (λ w. w ≡ Memory) }
{
    while let Some(symbol) = stack.pop() {
        match symbol {
            Symbol::Word(sort) => return Ok(sort.has(class)),
            Symbol::Goes(part) => {
                if let Some(rest) = found(forms(part), class) {
                    push_row(stack, rest)?;
                    return Ok(true);
                }
                if !may_end(forms(part)) {
                    return Ok(false);
                }
            }
        }
    }
    Ok(false)
}

/// Whether this may be passed by.
fn passes(symbol: Symbol) -> bool
    ensures { result ≡ passes forms symbol }
{
    match symbol {
        Symbol::Word(_) => false,
        Symbol::Goes(part) => may_end(forms(part)),
    }
}

/// Whether nothing more need be read.
fn all_pass(stack: &[Symbol]) -> bool
    ensures { result ≡ list_all (passes forms) stack.now }
{
    stack.iter().all(|symbol| passes(*symbol))
}

/// Whether a part reads some classes, or where it fails. Takes linear time, and a stack of its own. Fails where memory
/// runs out.
pub fn read(alloc: Global, start: Part, classes: &[Class]) -> Mem<Verdict>
    ensures judged { IfOk result (λ v. Judged forms (Goes start ∷ []) classes.now v) }
    ensures memory { IfErr result (λ w. w ≡ Memory) }
{
    let mut stack = Vec::new(alloc);
    stack.push(Symbol::Goes(start))?;
    for (place, class) in classes.iter().enumerate() {
        if !step(&mut stack, *class)? {
            return Ok(Verdict::Refused(place));
        }
    }
    if all_pass(&stack) {
        Ok(Verdict::Whole)
    } else {
        Ok(Verdict::Cut)
    }
}
