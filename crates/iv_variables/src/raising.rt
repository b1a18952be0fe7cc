//! Types and terms with all schematic numbers raised; what holds no schematic variable is shared.
ghost use Rattle.std.specs.Prelude.{◌≡◌, ◌<◌, ◌≤◌, ◌+◌, IfOk, IfErr};
ghost use Rattle.std.specs.Option.{unwrap_or};
ghost use Rattle.iv_term.specs.Term.{lam};
ghost use Rattle.iv_text.specs.declared.want.Want.TheVariants.{Memory, Number};
ghost use Rattle.iv_variables.specs.Variables.{typ_variables, types_variables, head_variables, variables, terms_variables};
ghost use Rattle.iv_variables.specs.Firsts.{next_number};
ghost use Rattle.iv_variables.specs.Raised.{raised_name as larger, raised_typ, raised_typs, raised_head, raised, raised_all};

use iv_shared::Shared;
use iv_term::changed_term::{constant, free, with_args, with_parts};
use iv_term::changed_typ::{with_args as with_types, with_parts as with_typ_parts};
use iv_term::{Head, Term, Terms, Typ, Types};
use iv_text::{Mem, Name, Want, new_or_copy, new_or_shared};
use std::alloc::Global;

/// The sum of two numbers. Fails, with `Number`, only where it is 4,294,967,295 or more.
fn sum(a: u32, b: u32) -> Mem<u32>
    ensures ok { IfOk result (λ n. n ≡ a + b) }
    ensures number { IfErr result (λ w. 4294967295 ≤ a + b) }
{
    match a.checked_add(b) {
        None => Err(Want::Number),
        Some(n) => Ok(n),
    }
}

/// A name with a larger number.
fn raised_name(x: &Name, by: u32) -> Mem<Name>
    ensures ok { IfOk result (λ y. y ≡ larger by x.now) }
    ensures number { IfErr result (λ w. w ≡ Number → 4294967295 ≤ x.now.number + by) }
{
    let number = sum(x.number, by)?;
    let text = x.text.copy()?;
    Ok(Name { text, number })
}

/// The type with its numbers raised, or `None` where it stays.
#[cycle(changed_typ)]
fn changed_typ(alloc: Global, a: &Typ, by: u32) -> Mem<Option<Typ>>
    ensures ok { IfOk result (λ r. unwrap_or r a.now ≡ raised_typ by a.now) }
    ensures number { IfErr result (λ w. w ≡ Number → 4294967295 < next_number (typ_variables (raised_typ by a.now))) }
{
    match a {
        Typ::Con(c, ts) => {
            let args = changed_types(alloc, ts, by)?;
            with_types(c, args)
        }
        Typ::Fixed(_text) => Ok(None),
        Typ::Schematic(x) => {
            let name = raised_name(x, by)?;
            Ok(Some(Typ::Schematic(name)))
        }
    }
}

/// The same of some types.
#[cycle(changed_typ)]
fn changed_types(alloc: Global, ts: &Types, by: u32) -> Mem<Option<Types>>
    ensures ok { IfOk result (λ r. unwrap_or r ts.now ≡ raised_typs by ts.now) }
    ensures number { IfErr result (λ w. w ≡ Number → 4294967295 < next_number (types_variables (raised_typs by ts.now))) }
{
    match ts {
        Types::Nil => Ok(None),
        Types::Cons(t, rest) => {
            let first = changed_typ(alloc, t.get(), by)?;
            let more = changed_types(alloc, rest.get(), by)?;
            with_typ_parts(alloc, first, t, more, rest)
        }
    }
}

/// A type with the numbers of its schematic type variables raised. Fails where memory runs out; with `Number` only where
/// a number in the result is 4,294,967,295 or more.
pub fn raise_typ(alloc: Global, a: &Typ, by: u32) -> Mem<Typ>
    ensures ok { IfOk result (λ b. b ≡ raised_typ by a.now) }
    ensures number { IfErr result (λ w. w ≡ Number → 4294967295 < next_number (typ_variables (raised_typ by a.now))) }
{
    let changed = changed_typ(alloc, a, by)?;
    new_or_copy(changed, a)
}

/// The head with all numbers raised, or `None` where it stays.
fn changed_head(alloc: Global, h: &Head, by: u32) -> Mem<Option<Head>>
    ensures ok { IfOk result (λ r. unwrap_or r h.now ≡ raised_head by h.now) }
    ensures number { IfErr result (λ w. w ≡ Number → 4294967295 < next_number (head_variables (raised_head by h.now))) }
{
    match h {
        Head::Const(c, a) => {
            let typ = changed_typ(alloc, a, by)?;
            constant(c, typ)
        }
        Head::Free(x, a) => {
            let typ = changed_typ(alloc, a, by)?;
            free(x, typ)
        }
        Head::Schematic(x, a) => {
            let name = raised_name(x, by)?;
            let typ = raise_typ(alloc, a, by)?;
            Ok(Some(Head::Schematic(name, typ)))
        }
        Head::Bound(_n) => Ok(None),
    }
}

/// An abstraction where the type or the body may be new.
fn with_body(
    alloc: Global,
    a: &Typ,
    typ: Option<Typ>,
    body: Option<Term>,
    old: &Shared<Term>,
) -> Mem<Option<Term>>
    ensures ok { IfOk result (λ r. unwrap_or r (lam a.now old.now) ≡ lam (unwrap_or typ a.now) (unwrap_or body old.now)) }
    ensures memory { IfErr result (λ w. w ≡ Memory) }
{
    match typ {
        None => match body {
            None => Ok(None),
            Some(body) => {
                let body = Shared::new(alloc, body)?;
                Ok(Some(Term::Abs(a.copy()?, body)))
            }
        },
        Some(typ) => {
            let body = new_or_shared(alloc, body, old)?;
            Ok(Some(Term::Abs(typ, body)))
        }
    }
}

/// The term with all numbers raised, or `None` where it stays.
#[cycle(changed)]
fn changed(alloc: Global, t: &Term, by: u32) -> Mem<Option<Term>>
    ensures ok { IfOk result (λ r. unwrap_or r t.now ≡ raised by t.now) }
    ensures number { IfErr result (λ w. w ≡ Number → 4294967295 < next_number (variables (raised by t.now))) }
{
    match t {
        Term::Abs(a, b) => {
            let body = changed(alloc, b.get(), by)?;
            let typ = changed_typ(alloc, a, by)?;
            with_body(alloc, a, typ, body, b)
        }
        Term::Spine(h, ts) => {
            let args = changed_all(alloc, ts, by)?;
            let head = changed_head(alloc, h, by)?;
            with_args(h, head, args, ts)
        }
    }
}

/// The same of some terms.
#[cycle(changed)]
fn changed_all(alloc: Global, ts: &Terms, by: u32) -> Mem<Option<Terms>>
    ensures ok { IfOk result (λ r. unwrap_or r ts.now ≡ raised_all by ts.now) }
    ensures number { IfErr result (λ w. w ≡ Number → 4294967295 < next_number (terms_variables (raised_all by ts.now))) }
{
    match ts {
        Terms::Nil => Ok(None),
        Terms::Cons(t, rest) => {
            let first = changed(alloc, t.get(), by)?;
            let more = changed_all(alloc, rest.get(), by)?;
            with_parts(alloc, first, t, more, rest)
        }
    }
}

/// A term with the numbers of all schematic variables and schematic type variables raised. What holds none is shared. Fails
/// where memory runs out; with `Number` only where a number in the result is 4,294,967,295 or more.
pub fn raise(alloc: Global, t: &Term, by: u32) -> Mem<Term>
    ensures ok { IfOk result (λ r. r ≡ raised by t.now) }
    ensures number { IfErr result (λ w. w ≡ Number → 4294967295 < next_number (variables (raised by t.now))) }
{
    let changed = changed(alloc, t, by)?;
    new_or_copy(changed, t)
}

/// The same of some terms.
pub fn raise_all(alloc: Global, ts: &Terms, by: u32) -> Mem<Terms>
    ensures ok { IfOk result (λ r. r ≡ raised_all by ts.now) }
    ensures number { IfErr result (λ w. w ≡ Number → 4294967295 < next_number (terms_variables (raised_all by ts.now))) }
{
    let changed = changed_all(alloc, ts, by)?;
    new_or_copy(changed, ts)
}
