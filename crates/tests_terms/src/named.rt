//! `iv_scope` and `iv_map`: names in scope, bindings, and maps by name.
use crate::written::{got, name, numbered, term, text, typ};
use iv_map::NameMap;
use iv_scope::{Binding, Bindings, ScopeName, ScopeNames};
use iv_term::Typ;
use std::alloc::Global;
use std::process::Abort;

#[test]
fn names(rt: HostRuntime) {
    let alloc = rt.alloc();
    let mut names = ScopeNames::new(alloc);
    let typed = ScopeName {
        name: name(&rt, alloc, 'x'),
        typ: Some(typ(&rt, alloc, "p")),
    };
    got(&rt, names.push(typed));
    let untyped = ScopeName {
        name: name(&rt, alloc, 'y'),
        typ: None,
    };
    got(&rt, names.push(untyped));
    match got(&rt, names.copy(alloc)).as_slice() {
        [x, y] => {
            assert!(rt;
                x.name.text.is_chars(&['x']) && x.typ.as_ref().is_some_and(|a| a.is_prop())
            );
            assert!(rt; y.name.text.is_chars(&['y']) && y.typ.is_none());
        }
        _ => panic!(rt; "not two names"),
    }
}

#[test]
fn bindings(rt: HostRuntime) {
    let alloc = rt.alloc();
    let mut bindings = Bindings::new(alloc);
    let text = text(&rt, alloc, &['t']);
    let term = term(&rt, alloc, "c");
    got(&rt, bindings.push(Binding { text, term }));
    let copy = got(&rt, bindings.copy(alloc));
    assert!(rt; copy.as_slice().iter().any(|b| b.text.is_chars(&['t'])));
}

/// Enters the variable with this number under its own name, where that is new.
fn enter(rt: &impl Abort, alloc: Global, map: &mut NameMap<Typ>, number: u32) -> bool {
    let key = numbered(rt, alloc, number);
    if map.has(&key) {
        return false;
    }
    let value = Typ::Schematic(numbered(rt, alloc, number));
    got(rt, map.push(key, value));
    true
}

#[test]
fn names_of_one_text(rt: HostRuntime) {
    let alloc = rt.alloc();
    let mut map = NameMap::new(alloc);
    for number in 0..40 {
        assert!(rt; enter(&rt, alloc, &mut map, number));
    }
    assert!(rt; !enter(&rt, alloc, &mut map, 7));
    let copy = got(&rt, map.copy(alloc));
    assert_eq!(rt; copy.len(), 40);
    assert_eq!(rt; copy.entry(39).0.number, 39);
    let seven = typ(&rt, alloc, "7");
    assert!(rt;
        copy.get(&numbered(&rt, alloc, 7))
            .is_some_and(|value| value.is(&seven))
    );
    assert!(rt; copy.get(&numbered(&rt, alloc, 40)).is_none());
}
