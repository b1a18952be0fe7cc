//! `iv_kernel`: proofs by its rules, goals, and lists of theorems.
//!
//! A part of a proof is a term, and the rules that are used with it and with the last one or two theorems, a letter each: `x` the
//! axiom x, `y` an axiom y, `h` assume, `r` refl, `u` the theorem of a goal of one subgoal, `i` imp_intr, `v` all_elim, `n` conv,
//! `g` a goal of two subgoals turned round, `z` a goal without subgoals finished, `s` sym, `q` all_intr and `l` abs over `A`, `p`
//! inst of `A` by `B`, `m` imp_elim, `e` eq_intr, `w` eq_elim, `t` trans, `k` comb. A capital says that the rule is refused.
//!
//! Other signs are about the last theorem: `=` that its proposition is the term, `+` that a hypothesis is, `-` that there is
//! none, `f` that `fixed_hyps` holds and `o` `one_typed`, `F` and `O` that they don't, `d` that its derivation is an instance of
//! an implication that was introduced.
use crate::putting::instance;
use crate::written::{expect, got, is_written, name, term, text, typ};
use iv_kernel::{Goal, NamedThm, Theorems, Thm};
use iv_rules::{Derivation, Instance};
use iv_sig::Sig;
use iv_term::{Term, Typ};
use iv_text::{Name, Text};
use std::alloc::Global;
use std::process::Abort;

/// The axiom `x`, which is `?`.
fn declared(rt: &impl Abort, alloc: Global) -> Sig {
    let mut sig = got(rt, Sig::new(alloc));
    let given = sig.add_axiom(alloc, text(rt, alloc, &['x']), term(rt, alloc, "?"));
    assert!(rt; given.is_ok());
    sig
}

/// What rules are given beside terms and theorems.
#[derive(Drop)]
struct Given {
    alloc: Global,
    sig: Sig,
    axiom: Text,
    other: Text,
    variable: Name,
    typ: Typ,
    instance: Instance,
}

fn all_given(rt: &impl Abort, alloc: Global) -> Given {
    Given {
        alloc,
        sig: declared(rt, alloc),
        axiom: text(rt, alloc, &['x']),
        other: text(rt, alloc, &['y']),
        variable: name(rt, alloc, 'A'),
        typ: typ(rt, alloc, "p"),
        instance: instance(rt, alloc, 'A', "B"),
    }
}

/// The theorem of a goal with the claim as its only subgoal.
fn begun(rt: &impl Abort, alloc: Global, claim: &Term) -> Option<Thm> {
    if !Goal::can_init(claim) {
        return None;
    }
    let goal = got(rt, Goal::init(alloc, claim));
    assert!(rt; goal.count() == 1 && goal.claim().is(claim));
    let thm = got(rt, goal.thm().copy());
    drop(goal);
    Some(thm)
}

/// Whether two goals of two subgoals have the same ones, one claim and one proposition.
fn are_one(a: &Goal, b: &Goal) -> bool {
    if a.count() != 2 || b.count() != 2 {
        return false;
    }
    let same_first = a.subgoal(1).is(b.subgoal(1));
    let same_second = a.subgoal(2).is(b.subgoal(2));
    same_first && same_second && a.claim().is(b.claim()) && a.thm().prop().is(b.thm().prop())
}

/// A theorem as a goal, of which a copy goes on.
fn goal_of(rt: &impl Abort, alloc: Global, claim: &Term, t: &Thm, count: u32) -> Option<Goal> {
    if !Goal::can_make(alloc, t, count, claim).expect(rt, "memory") {
        return None;
    }
    let goal = got(rt, Goal::made(t.copy().expect(rt, "memory"), count, claim));
    let copy = got(rt, goal.copy());
    assert!(rt; count != 2 || are_one(&copy, &goal));
    drop(goal);
    Some(copy)
}

/// A theorem as a goal of two subgoals, with the first of them behind the second.
fn turned(rt: &impl Abort, alloc: Global, claim: &Term, t: &Thm) -> Option<Thm> {
    let goal = goal_of(rt, alloc, claim, t, 2)?;
    assert_eq!(rt; goal.count(), 2);
    let other = got(rt, goal.rotate(alloc, 1, 2));
    assert!(rt; other.count() == 2 && other.claim().is(claim));
    let thm = got(rt, other.thm().copy());
    drop(goal);
    drop(other);
    Some(thm)
}

/// A theorem as a goal without subgoals.
fn finished(rt: &impl Abort, alloc: Global, claim: &Term, t: &Thm) -> Option<Thm> {
    let goal = goal_of(rt, alloc, claim, t, 0)?;
    assert_eq!(rt; goal.count(), 0);
    Some(goal.finish())
}

fn of_axiom(rt: &impl Abort, g: &Given, called: &Text) -> Option<Thm> {
    if !Thm::can_axiom(&g.sig, called) {
        return None;
    }
    Some(got(rt, Thm::axiom(g.alloc, &g.sig, called)))
}

fn of_term(rt: &impl Abort, g: &Given, letter: char, a: &Term) -> Option<Thm> {
    match letter {
        'x' => of_axiom(rt, g, &g.axiom),
        'y' => of_axiom(rt, g, &g.other),
        'h' if Thm::can_assume(a) => Some(got(rt, Thm::assume(g.alloc, a))),
        'r' if Thm::can_refl(a) => Some(got(rt, Thm::refl(g.alloc, a))),
        'u' => begun(rt, g.alloc, a),
        _ => None,
    }
}

fn of_both(rt: &impl Abort, g: &Given, letter: char, a: &Term, t: &Thm) -> Option<Thm> {
    match letter {
        'i' if Thm::can_imp_intr(a, t) => Some(got(rt, Thm::imp_intr(g.alloc, a, t))),
        'v' if Thm::can_all_elim(a, t) => Some(got(rt, Thm::all_elim(g.alloc, a, t))),
        'n' if Thm::can_conv(g.alloc, a, t).expect(rt, "memory") => Some(got(
            rt,
            Thm::conv(g.alloc, a, t),
        )),
        'g' => turned(rt, g.alloc, a, t),
        'z' => finished(rt, g.alloc, a, t),
        _ => None,
    }
}

fn of_one(rt: &impl Abort, g: &Given, letter: char, t: &Thm) -> Option<Thm> {
    match letter {
        's' if Thm::can_sym(t) => Some(got(rt, Thm::sym(g.alloc, t))),
        'q' if Thm::can_all_intr(&g.variable, &g.typ, t) => {
            Some(got(rt, Thm::all_intr(g.alloc, &g.variable, &g.typ, t)))
        }
        'l' if Thm::can_abs(&g.variable, &g.typ, t) => {
            Some(got(rt, Thm::abs(g.alloc, &g.variable, &g.typ, t)))
        }
        'p' if Thm::can_inst(&g.instance, t) => Some(got(rt, Thm::inst(g.alloc, &g.instance, t))),
        _ => None,
    }
}

fn of_two(rt: &impl Abort, alloc: Global, letter: char, s: &Thm, t: &Thm) -> Option<Thm> {
    match letter {
        'm' if Thm::can_imp_elim(s, t) => Some(got(rt, Thm::imp_elim(alloc, s, t))),
        'e' if Thm::can_eq_intr(s, t) => Some(got(rt, Thm::eq_intr(alloc, s, t))),
        'w' if Thm::can_eq_elim(s, t) => Some(got(rt, Thm::eq_elim(alloc, s, t))),
        't' if Thm::can_trans(s, t) => Some(got(rt, Thm::trans(alloc, s, t))),
        'k' if Thm::can_comb(s, t) => Some(got(rt, Thm::comb(alloc, s, t))),
        _ => None,
    }
}

/// The last theorem.
fn last<'a>(rt: &impl Abort, thms: &'a [Thm]) -> &'a Thm {
    match thms {
        [.., t] => t,
        [] => panic!(rt; "no theorem"),
    }
}

/// The one before the last theorem.
fn before<'a>(rt: &impl Abort, thms: &'a [Thm]) -> &'a Thm {
    match thms {
        [.., s, _t] => s,
        _ => panic!(rt; "no two theorems"),
    }
}

/// What a rule makes of a term and the last theorems, where it can be used.
fn step(rt: &impl Abort, g: &Given, letter: char, a: &Term, thms: &[Thm]) -> Option<Thm> {
    match letter {
        'x' | 'y' | 'h' | 'r' | 'u' => of_term(rt, g, letter, a),
        'i' | 'v' | 'n' | 'g' | 'z' => of_both(rt, g, letter, a, last(rt, thms)),
        's' | 'q' | 'l' | 'p' => of_one(rt, g, letter, last(rt, thms)),
        _ => of_two(rt, g.alloc, letter, before(rt, thms), last(rt, thms)),
    }
}

/// Whether it is an instance of an implication that was introduced.
fn is_instance(d: &Derivation) -> bool {
    match d {
        Derivation::Inst(_s, premise) => match premise.get() {
            Derivation::ImpIntr(_a, _d) => true,
            _ => false,
        },
        _ => false,
    }
}

/// Whether what a sign asks for holds of a theorem.
fn holds(rt: &impl Abort, sign: char, a: &Term, t: &Thm) -> bool {
    match sign {
        '=' => t.prop().is(a),
        '+' => t.hyps().has(a),
        '-' => t.hyps().is_nil(),
        'f' => t.fixed_hyps(),
        'F' => !t.fixed_hyps(),
        'o' => t.one_typed(),
        'O' => !t.one_typed(),
        'd' => is_instance(t.derivation()),
        _ => panic!(rt; "no sign"),
    }
}

/// Whether a rule is refused.
fn is_refused(rt: &impl Abort, g: &Given, letter: char, a: &Term, thms: &[Thm]) -> bool {
    step(rt, g, letter.to_ascii_lowercase(), a, thms).is_none()
}

/// Uses rules, and asks, with one term.
fn use_rules(rt: &impl Abort, g: &Given, a: &Term, rules: &str, thms: &mut Vec<Thm>) {
    for letter in rules.chars() {
        match letter {
            '=' | '+' | '-' | 'f' | 'F' | 'o' | 'O' | 'd' => {
                expect(
                    rt,
                    holds(rt, letter, a, last(rt, thms.as_slice())),
                    letter,
                    rules,
                );
            }
            'A'..='Z' => {
                expect(
                    rt,
                    is_refused(rt, g, letter, a, thms.as_slice()),
                    letter,
                    rules,
                );
            }
            _ => {
                let made = step(rt, g, letter, a, thms.as_slice());
                thms.push(made.expect(rt, "refused")).expect(rt, "memory");
            }
        }
    }
}

/// The terms and rules of a proof, each term before its rules.
fn prove(rt: &impl Abort, g: &Given, written: &str) {
    let mut thms = Vec::new(g.alloc);
    for part in written.split_ascii_whitespace() {
        match part.split_once(':') {
            Some((a, rules)) => {
                let a = term(rt, g.alloc, a);
                use_rules(rt, g, &a, rules, &mut thms);
                drop(a);
            }
            None => panic!(rt; "no rules"),
        }
    }
    drop(thms);
}

const PROOFS: &[&str] = &[
    "?:x=-Y",
    "A:h=+ 0:HI A:i- (=AA):= A:hm=+M",
    "A:hQiq (!^(=00)):= 0:V B:v (=BB):= B:V",
    "A:r (~AA):= 0:R B:rT B:hS",
    "(=AB):h (=BA):he (~AB):=s (~BA):=t (~AA):=E",
    "(=AB):h (=BA):he A:hw B:=W",
    "A:rlKrk (~AA):=hL",
    // `B ==> (!!A. A ==> A)` and `!!A. B ==> A ==> A` have one form; `B ==> A ==> A` has another.
    "A:hiq B:i (=B(=AA)):N (!^(=B(=00))):n=",
    "A:hPipd (=BB):=fo ?:hFo",
    // In `? |- ? B ==> ?` the schematic has two types.
    "?:ho ($B):i (=($B)?):=O",
    // `B ==> (!!A. A ==> A)` as a goal, whose subgoal is `!!A. B ==> A ==> A`.
    "0:U (=B(!^(=00))):u- (=(!^(=B(=00)))(=B(!^(=00)))):=",
    // `B ==> C ==> A` as a goal, and `C ==> B ==> A`.
    "A:hG C:i B:i A:g (=C(=BA)):= A:+",
    // A goal without subgoals, not with another claim.
    "A:h B:Z A:z=+",
];

#[test]
fn proofs(rt: HostRuntime) {
    let g = all_given(&rt, rt.alloc());
    for written in PROOFS {
        prove(&rt, &g, written);
    }
    drop(g);
}

/// The theorem `A |- A`, for a letter.
fn assumed(rt: &impl Abort, alloc: Global, written: &str) -> Thm {
    let prop = term(rt, alloc, written);
    assert!(rt; Thm::can_assume(&prop));
    let thm = got(rt, Thm::assume(alloc, &prop));
    drop(prop);
    thm
}

/// `A |- A` with the name `a`, and `B |- B` without one.
#[test]
fn theorems_with_names(rt: HostRuntime) {
    let alloc = rt.alloc();
    let mut theorems = Theorems::new(alloc);
    let name = Some(text(&rt, alloc, &['a']));
    let thm = assumed(&rt, alloc, "A");
    got(&rt, theorems.push(NamedThm { name, thm }));
    let thm = assumed(&rt, alloc, "B");
    got(&rt, theorems.push(NamedThm { name: None, thm }));
    let copy = got(&rt, theorems.copy(alloc));
    match copy.as_slice() {
        [first, second] => {
            assert!(rt;
                first
                    .name
                    .as_ref()
                    .is_some_and(|name| name.is_chars(&['a']))
            );
            assert!(rt; second.name.is_none());
            assert!(rt;
                is_written(&rt, alloc, first.thm.prop(), "A")
                    && is_written(&rt, alloc, second.thm.prop(), "B")
            );
        }
        _ => panic!(rt; "not two theorems"),
    }
    drop(theorems);
    drop(copy);
}
