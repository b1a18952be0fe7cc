//! Types and terms as texts, which are read from the last letter on.
//!
//! A type is `p` for `prop`, `'` for the fixed variable `'a`, `> a b` for functions, or another letter for a constructor. A term
//! is a letter, `h t u` in round brackets, a digit for a bound variable, or an abstraction by `%` or `^`. `kind` has the type of
//! each letter.
use iv_shared::Shared;
use iv_term::{Head, Term, Terms, Typ, Types};
use iv_text::{Mem, Name, Text};
use std::alloc::Global;
use std::process::Abort;

/// What a call gives where memory is ample.
pub fn got<T>(rt: &impl Abort, made: Mem<T>) -> T {
    made.expect(rt, "memory")
}

/// Stops where something isn't so, with what it is about.
pub fn expect(rt: &impl Abort, is_so: bool, letter: char, about: &str) {
    assert!(rt; is_so, "{letter} of {about}");
}

pub fn text(rt: &impl Abort, alloc: Global, chars: &[char]) -> Text {
    got(rt, Text::from_slice(alloc, chars))
}

pub fn name(rt: &impl Abort, alloc: Global, letter: char) -> Name {
    let text = text(rt, alloc, &[letter]);
    Name { text, number: 0 }
}

fn first<'a>(rt: &impl Abort, types: &'a Types) -> &'a Typ {
    match types {
        Types::Cons(first, _rest) => first.get(),
        Types::Nil => panic!(rt; "no type"),
    }
}

fn rest<'a>(rt: &impl Abort, types: &'a Types) -> &'a Types {
    match types {
        Types::Cons(_first, rest) => rest.get(),
        Types::Nil => panic!(rt; "no type"),
    }
}

/// The first two types as a type of functions, and the others.
fn function(rt: &impl Abort, alloc: Global, types: &Types) -> Types {
    let more = rest(rt, types);
    let to = got(rt, first(rt, more).copy());
    let from = got(rt, first(rt, types).copy());
    let typ = got(rt, Typ::fun(alloc, from, to));
    got(rt, Types::cons(alloc, typ, got(rt, rest(rt, more).copy())))
}

/// The type of a letter.
fn letter_type(rt: &impl Abort, alloc: Global, letter: char) -> Typ {
    match letter {
        'p' => got(rt, Typ::prop(alloc)),
        '\'' => Typ::Fixed(text(rt, alloc, &['a'])),
        _ => Typ::Con(text(rt, alloc, &[letter]), Types::Nil),
    }
}

fn types(rt: &impl Abort, alloc: Global, written: &str) -> Types {
    let mut types = Types::Nil;
    for letter in written.chars().rev() {
        types = match letter {
            '>' => function(rt, alloc, &types),
            _ => got(
                rt,
                Types::cons(alloc, letter_type(rt, alloc, letter), types),
            ),
        };
    }
    types
}

pub fn typ(rt: &impl Abort, alloc: Global, written: &str) -> Typ {
    let types = types(rt, alloc, written);
    let typ = got(rt, first(rt, &types).copy());
    drop(types);
    typ
}

/// The type of a variable or a constant, or that over which a sign abstracts.
fn kind(letter: char) -> &'static str {
    match letter {
        'A' | 'B' | 'C' | 'D' | '?' | '^' => "p",
        '$' => ">pp",
        '=' | '~' => ">p>pp",
        '!' => ">>ppp",
        'k' | 'g' => ">ip",
        'K' => ">'p",
        'z' => "'",
        _ => "i",
    }
}

/// The constant `==>` for `=`, `==` for `~`, `!!` for `!`, and k for `k` and `K`; the schematic variable `?` for `?` and `$`; else
/// a free variable, of the name y for `z` and A for `a`.
pub fn head(rt: &impl Abort, alloc: Global, letter: char) -> Head {
    let a = typ(rt, alloc, kind(letter));
    match letter {
        '=' => Head::Const(text(rt, alloc, &['=', '=', '>']), a),
        '~' => Head::Const(text(rt, alloc, &['=', '=']), a),
        '!' => Head::Const(text(rt, alloc, &['!', '!']), a),
        'k' | 'K' => Head::Const(text(rt, alloc, &['k']), a),
        '?' | '$' => Head::Schematic(name(rt, alloc, '?'), a),
        'z' => Head::Free(name(rt, alloc, 'y'), a),
        'a' => Head::Free(name(rt, alloc, 'A'), a),
        _ => Head::Free(name(rt, alloc, letter), a),
    }
}

fn atom(rt: &impl Abort, alloc: Global, letter: char) -> Term {
    match letter.to_digit(10) {
        Some(n) => spine(Head::Bound(n), Terms::Nil),
        None => spine(head(rt, alloc, letter), Terms::Nil),
    }
}

fn spine(h: Head, args: Terms) -> Term {
    Term::Spine(h, args)
}

fn head_of(rt: &impl Abort, t: &Term) -> Head {
    match t {
        Term::Spine(h, _args) => got(rt, h.copy()),
        Term::Abs(_a, _b) => panic!(rt; "no head"),
    }
}

/// The first of some terms at the others.
fn applied(rt: &impl Abort, terms: &Terms) -> Term {
    match terms {
        Terms::Cons(first, args) => {
            let h = head_of(rt, first.get());
            spine(h, got(rt, args.get().copy()))
        }
        Terms::Nil => panic!(rt; "no head"),
    }
}

/// The first of some terms under a binder, and the others.
fn bind(rt: &impl Abort, alloc: Global, a: Typ, terms: Terms) -> Terms {
    match terms {
        Terms::Cons(body, rest) => {
            let first = Shared::new(alloc, Term::Abs(a, body)).expect(rt, "memory");
            Terms::Cons(first, rest)
        }
        Terms::Nil => panic!(rt; "no term"),
    }
}

pub fn terms(rt: &impl Abort, alloc: Global, written: &str) -> Terms {
    let mut outer = Vec::new(alloc);
    let mut terms = Terms::Nil;
    for letter in written.chars().rev() {
        terms = match letter {
            ' ' => terms,
            ')' => {
                outer.push(terms).expect(rt, "memory");
                Terms::Nil
            }
            '(' => {
                let rest = outer.pop().expect(rt, "no bracket");
                got(rt, Terms::cons(alloc, applied(rt, &terms), rest))
            }
            '%' | '^' => bind(rt, alloc, typ(rt, alloc, kind(letter)), terms),
            _ => got(rt, Terms::cons(alloc, atom(rt, alloc, letter), terms)),
        };
    }
    drop(outer);
    terms
}

fn first_term<'a>(rt: &impl Abort, terms: &'a Terms) -> &'a Term {
    match terms {
        Terms::Cons(first, _rest) => first.get(),
        Terms::Nil => panic!(rt; "no term"),
    }
}

pub fn term(rt: &impl Abort, alloc: Global, written: &str) -> Term {
    let terms = terms(rt, alloc, written);
    let term = got(rt, first_term(rt, &terms).copy());
    drop(terms);
    term
}

fn same(t: Term, u: Term) -> bool {
    let is_same = t.is(&u);
    drop(t);
    drop(u);
    is_same
}

/// Whether it is the term that is written.
pub fn is_written(rt: &impl Abort, alloc: Global, t: &Term, written: &str) -> bool {
    let wanted = term(rt, alloc, written);
    let is_same = t.is(&wanted);
    drop(wanted);
    is_same
}

/// Whether a call made this term.
pub fn is(rt: &impl Abort, alloc: Global, made: Mem<Term>, written: &str) -> bool {
    same(got(rt, made), term(rt, alloc, written))
}

/// Whether a call made these terms, as arguments of one head.
pub fn are(rt: &impl Abort, alloc: Global, made: Mem<Terms>, written: &str) -> bool {
    let given = spine(Head::Bound(0), got(rt, made));
    same(given, spine(Head::Bound(0), terms(rt, alloc, written)))
}
