//! Types and terms as texts, which are read from the last letter on.
//!
//! A type is `p` for `prop`, a digit for the schematic variable `?'a` with this number, `f` for the constructor of functions
//! without arguments, `> a b` for functions, or another letter for a constructor. A term is a letter, `h t u` in round
//! brackets, a digit for a bound variable, or an abstraction by one of `%`, `^` and `&`. `kind` has the type of each letter.
use iv_shared::Shared;
use iv_term::{Head, Term, Terms, Typ, Types};
use iv_text::{Mem, Name, Text};
use std::alloc::Global;
use std::process::Abort;

/// What a call gives where memory is ample.
pub fn got<T>(rt: &impl Abort, made: Mem<T>) -> T {
    made.expect(rt, "memory")
}

pub fn text(rt: &impl Abort, alloc: Global, chars: &[char]) -> Text {
    got(rt, Text::from_slice(alloc, chars))
}

pub fn name(rt: &impl Abort, alloc: Global, letter: char) -> Name {
    let text = text(rt, alloc, &[letter]);
    Name { text, number: 0 }
}

/// The name `a` with a number.
pub fn numbered(rt: &impl Abort, alloc: Global, number: u32) -> Name {
    let text = text(rt, alloc, &['a']);
    Name { text, number }
}

fn first<'a>(rt: &impl Abort, types: &'a Types) -> &'a Typ {
    match types {
        Types::Cons(first, _rest) => first.get(),
        Types::Nil => panic!(rt; "no type"),
    }
}

fn rest<'a>(rt: &impl Abort, types: &'a Types) -> &'a Types {
    match types {
        Types::Cons(_first, rest) => rest.get(),
        Types::Nil => panic!(rt; "no type"),
    }
}

/// The first two types as a type of functions, and the others.
fn function(rt: &impl Abort, alloc: Global, types: &Types) -> Types {
    let more = rest(rt, types);
    let to = got(rt, first(rt, more).copy());
    let from = got(rt, first(rt, types).copy());
    let typ = got(rt, Typ::fun(alloc, from, to));
    got(rt, Types::cons(alloc, typ, got(rt, rest(rt, more).copy())))
}

/// The type of a letter.
fn letter_type(rt: &impl Abort, alloc: Global, letter: char) -> Typ {
    match letter.to_digit(10) {
        Some(number) => Typ::Schematic(numbered(rt, alloc, number)),
        None => match letter {
            'p' => got(rt, Typ::prop(alloc)),
            'f' => Typ::Con(text(rt, alloc, &['f', 'u', 'n']), Types::Nil),
            _ => Typ::Con(text(rt, alloc, &[letter]), Types::Nil),
        },
    }
}

pub fn types(rt: &impl Abort, alloc: Global, written: &str) -> Types {
    let mut types = Types::Nil;
    for letter in written.chars().rev() {
        types = match letter {
            '>' => function(rt, alloc, &types),
            _ => got(
                rt,
                Types::cons(alloc, letter_type(rt, alloc, letter), types),
            ),
        };
    }
    types
}

pub fn typ(rt: &impl Abort, alloc: Global, written: &str) -> Typ {
    let types = types(rt, alloc, written);
    got(rt, first(rt, &types).copy())
}

/// The type of a variable or a constant, or that over which a sign abstracts.
pub fn kind(letter: char) -> &'static str {
    match letter {
        'A' | 'B' | 'C' | 'D' => "p",
        'Y' => "0",
        '^' | 'X' | 'f' => ">ii",
        '&' => ">ip",
        'h' | 'G' => ">i>ii",
        'F' => ">>iii",
        'H' => ">0>ii",
        'q' => ">i>>iii",
        '=' => ">p>pp",
        'P' | '!' => ">>ipp",
        '?' => ">>>ippp",
        _ => "i",
    }
}

/// The constant `==>` for `=` and `!!` for `!` and `?`, a schematic variable for `y`, `Y`, `f`, `F` and `G`, else a free one.
/// `X`, `H` and `Y` have the names of `x`, `h` and `y`, and other types.
fn head(rt: &impl Abort, alloc: Global, letter: char) -> Head {
    let a = typ(rt, alloc, kind(letter));
    match letter {
        '=' => Head::Const(text(rt, alloc, &['=', '=', '>']), a),
        '!' | '?' => Head::Const(text(rt, alloc, &['!', '!']), a),
        'X' => Head::Free(name(rt, alloc, 'x'), a),
        'H' => Head::Free(name(rt, alloc, 'h'), a),
        'Y' => Head::Schematic(name(rt, alloc, 'y'), a),
        'y' | 'f' | 'F' | 'G' => Head::Schematic(name(rt, alloc, letter), a),
        _ => Head::Free(name(rt, alloc, letter), a),
    }
}

fn atom(rt: &impl Abort, alloc: Global, letter: char) -> Term {
    match letter.to_digit(10) {
        Some(n) => spine(Head::Bound(n), Terms::Nil),
        None => spine(head(rt, alloc, letter), Terms::Nil),
    }
}

fn spine(h: Head, args: Terms) -> Term {
    Term::Spine(h, args)
}

fn head_of(rt: &impl Abort, t: &Term) -> Head {
    match t {
        Term::Spine(h, _args) => got(rt, h.copy()),
        Term::Abs(_a, _b) => panic!(rt; "no head"),
    }
}

/// The first of some terms at the others.
fn applied(rt: &impl Abort, terms: &Terms) -> Term {
    match terms {
        Terms::Cons(first, args) => {
            let h = head_of(rt, first.get());
            spine(h, got(rt, args.get().copy()))
        }
        Terms::Nil => panic!(rt; "no head"),
    }
}

/// The first of some terms under a binder, and the others.
fn bind(rt: &impl Abort, alloc: Global, a: Typ, terms: Terms) -> Terms {
    match terms {
        Terms::Cons(body, rest) => {
            let first = Shared::new(alloc, Term::Abs(a, body)).expect(rt, "memory");
            Terms::Cons(first, rest)
        }
        Terms::Nil => panic!(rt; "no term"),
    }
}

pub fn terms(rt: &impl Abort, alloc: Global, written: &str) -> Terms {
    let mut outer = Vec::new(alloc);
    let mut terms = Terms::Nil;
    for letter in written.chars().rev() {
        terms = match letter {
            ' ' => terms,
            ')' => {
                outer.push(terms).expect(rt, "memory");
                Terms::Nil
            }
            '(' => {
                let rest = outer.pop().expect(rt, "no bracket");
                got(rt, Terms::cons(alloc, applied(rt, &terms), rest))
            }
            '%' | '^' | '&' => bind(rt, alloc, typ(rt, alloc, kind(letter)), terms),
            _ => got(rt, Terms::cons(alloc, atom(rt, alloc, letter), terms)),
        };
    }
    terms
}

pub fn term(rt: &impl Abort, alloc: Global, written: &str) -> Term {
    match terms(rt, alloc, written) {
        Terms::Cons(first, _rest) => got(rt, first.get().copy()),
        Terms::Nil => panic!(rt; "no term"),
    }
}

/// Whether a call made this type.
pub fn is_typ(rt: &impl Abort, alloc: Global, made: Mem<Typ>, written: &str) -> bool {
    let given = got(rt, made);
    let wanted = typ(rt, alloc, written);
    given.is(&wanted)
}

fn same(t: Term, u: Term) -> bool {
    t.is(&u)
}

/// Whether a call made this term.
pub fn is(rt: &impl Abort, alloc: Global, made: Mem<Term>, written: &str) -> bool {
    same(got(rt, made), term(rt, alloc, written))
}

/// Whether a call made these terms, as arguments of one head.
pub fn are(rt: &impl Abort, alloc: Global, made: Mem<Terms>, written: &str) -> bool {
    let given = spine(Head::Bound(0), got(rt, made));
    same(given, spine(Head::Bound(0), terms(rt, alloc, written)))
}
