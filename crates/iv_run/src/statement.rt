ghost use Rattle.std.specs.Prelude.{◌≡◌, ◌<◌, [], ◌∷◌, ◌++◌, length, IfOk, IfErr};
ghost use Rattle.std.specs.List.{list_any};
ghost use Rattle.std.specs.Str.{bytes_eq};
ghost use Rattle.iv_text.specs.declared.want.Want.TheVariants.{Memory};
ghost use Rattle.iv_term.specs.Term.{imp};
ghost use Rattle.iv_run.specs.Statement.{name_of, free_var, schematic_var, statement_of, is_solved};

use iv_term::{Head, Term, Terms, Typ};
use iv_text::{Mem, Name, Text};
use std::alloc::Global;

/// The name of a text, with the number 0. Fails where a count of owners is full.
pub fn name_of(text: &Text) -> Mem<Name>
    ensures ok { IfOk result (λ n. n ≡ name_of text.now) }
    ensures memory { IfErr result (λ w. w ≡ Memory) }
{
    Ok(Name {
        text: text.copy()?,
        number: 0,
    })
}

/// The free variable of type `prop` with this text. Fails where memory runs out.
pub fn free_var(alloc: Global, text: &Text) -> Mem<Term>
    ensures ok { IfOk result (λ t. t ≡ free_var text.now) }
    ensures memory { IfErr result (λ w. w ≡ Memory) }
{
    let head = Head::Free(name_of(text)?, Typ::prop(alloc)?);
    Ok(Term::Spine(head, Terms::Nil))
}

/// The schematic variable of type `prop` with this text. Fails where memory runs out.
pub fn schematic_var(alloc: Global, text: &Text) -> Mem<Term>
    ensures ok { IfOk result (λ t. t ≡ schematic_var text.now) }
    ensures memory { IfErr result (λ w. w ≡ Memory) }
{
    let head = Head::Schematic(name_of(text)?, Typ::prop(alloc)?);
    Ok(Term::Spine(head, Terms::Nil))
}

/// A proposition with a free variable as one premise more. Fails where memory runs out.
fn with_premise(alloc: Global, premise: &Text, rest: &Term) -> Mem<Term>
    ensures ok { IfOk result (λ t. t ≡ imp (free_var premise.now) rest.now) }
    ensures memory { IfErr result (λ w. w ≡ Memory) }
{
    let premise = free_var(alloc, premise)?;
    let built = Term::imp(alloc, &premise, rest);
    drop(premise);
    built
}

/// The statement with these premises and this conclusion, over free variables. Fails where memory runs out.
pub fn statement(alloc: Global, premises: &[Text], conclusion: &Text) -> Mem<Term>
    ensures ok { IfOk result (λ t. t ≡ statement_of free_var (premises.now ++ conclusion.now ∷ [])) }
    ensures memory { IfErr result (λ w. w ≡ Memory) }
{
    let mut built = free_var(alloc, conclusion)?;
    let mut at = premises.len();
    'premises: while at > 0 {
        at -= 1;
        let more = with_premise(alloc, &premises[at], &built);
        drop(built);
        built = more?;
    }
    Ok(built)
}

/// Whether one of the premises is the conclusion. Takes no memory.
pub fn is_solved(premises: &[Text], conclusion: &Text) -> bool
    ensures { result ≡ list_any (λ p. bytes_eq p conclusion.now) premises.now }
{
    premises.iter().any(|premise| premise.is(conclusion))
}
