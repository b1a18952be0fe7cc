//! `iv_rules`: instances as they are entered, copied and looked up.
use crate::written::{got, is_written, name, term, text, typ};
use iv_rules::{FixedTypes, Instance, SchematicTypes, VarTerms};
use std::alloc::Global;
use std::process::Abort;

/// `prop` for the fixed type variable a.
fn fixed(rt: &impl Abort, alloc: Global) -> FixedTypes {
    let mut types = FixedTypes::new(alloc);
    got(rt, types.push(text(rt, alloc, &['a']), typ(rt, alloc, "p")));
    types
}

/// `prop` for the schematic type variable b.
fn schematic(rt: &impl Abort, alloc: Global) -> SchematicTypes {
    let mut types = SchematicTypes::new(alloc);
    got(rt, types.push(name(rt, alloc, 'b'), typ(rt, alloc, "p")));
    types
}

/// A term for the variable of type `prop` with this letter.
fn value(rt: &impl Abort, alloc: Global, letter: char, written: &str) -> VarTerms {
    let mut terms = VarTerms::new(alloc);
    let name = name(rt, alloc, letter);
    got(
        rt,
        terms.push(name, typ(rt, alloc, "p"), term(rt, alloc, written)),
    );
    terms
}

/// Whether a list puts this term, alone, for the variable of type `prop` with this letter, and nothing for that of type i.
fn puts(rt: &impl Abort, alloc: Global, terms: &VarTerms, letter: char, written: &str) -> bool {
    let name = name(rt, alloc, letter);
    let prop = typ(rt, alloc, "p");
    let is_put = terms
        .get(&name, &prop)
        .is_some_and(|v| is_written(rt, alloc, v, written));
    let other = typ(rt, alloc, "i");
    let is_alone = terms.len() == 1 && terms.get(&name, &other).is_none();
    drop(name);
    drop(prop);
    drop(other);
    is_put && is_alone
}

#[test]
fn instances_are_copied(rt: HostRuntime) {
    let alloc = rt.alloc();
    let instance = Instance {
        fixed: fixed(&rt, alloc),
        types: schematic(&rt, alloc),
        frees: value(&rt, alloc, 'c', "C"),
        schematics: value(&rt, alloc, 'd', "D"),
    };
    let copy = got(&rt, instance.copy(alloc));
    let a = text(&rt, alloc, &['a']);
    let b = name(&rt, alloc, 'b');
    assert!(rt; copy.fixed.len() == 1 && copy.fixed.get(&a).is_some_and(|t| t.is_prop()));
    assert!(rt; copy.types.len() == 1 && copy.types.get(&b).is_some_and(|t| t.is_prop()));
    assert!(rt; puts(&rt, alloc, &copy.frees, 'c', "C"));
    assert!(rt; puts(&rt, alloc, &copy.schematics, 'd', "D"));
    drop(instance);
    drop(copy);
    drop(a);
    drop(b);
}
