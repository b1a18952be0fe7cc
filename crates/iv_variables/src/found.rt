//! Variables that were found, each once.
ghost use Rattle.std.specs.Prelude.{◌≡◌, ◌<◌, [], length, Some, slice_get, IfOk, IfErr, OnOk, OnErr};
ghost use Rattle.std.specs.List.{list_any, filter};
ghost use Rattle.indexmap.specs.IndexSet.{insert_key};
ghost use Rattle.iv_text.specs.declared.want.Want.TheVariants.{Memory};
ghost use Rattle.iv_variables.specs.Variables.{same_variable, typ_variables, variables, terms_variables};
ghost use Rattle.iv_variables.specs.Firsts.{firsts, of_kind, extended};

use crate::kind::Kind;
use crate::variable::Variable;
use crate::walk::{Test, Visitor, each, each_in_terms, each_in_typ};
use indexmap::IndexSet;
use iv_term::{Term, Terms, Typ};
use iv_text::{Mem, Name, Text};
use std::alloc::Global;
use std::marker::Model;

/// Variables, no two the same, in the order in which they were found. Contracts see a list.
pub struct Variables {
    set: IndexSet<Variable>,
}

// By hand, so that a caller's proof has one call where a set ends.
impl Drop for Variables {
    fn drop(self) {
        let Variables { set: _set } = self;
    }
}

impl Model for Variables {
    ghost use Rattle.std.specs.Prelude.{List};
    ghost use Rattle.std.specs.Coded.{coded_list};
    ghost use Rattle.iv_variables.specs.contracts.variable.Variable as a_variable;
    ghost use Rattle.iv_variables.specs.declared.variable.Variable.{Variable};

    ghost Value = { List Variable };

    ghost coded = { coded_list a_variable.the_row.coded };

    ghost view = { λ s. s.set.keys };
}

impl Variables {
    /// No variables.
    pub fn new(alloc: Global) -> Variables
        ensures { result ≡ [] }
    {
        Variables {
            set: IndexSet::new(alloc),
        }
    }

    /// How many they are.
    pub fn len(&self) -> usize
        ensures { result ≡ length self.now }
    {
        self.set.len()
    }

    /// One of them, counted from 0.
    pub fn entry(&self, index: usize) -> &Variable
        requires { index < length self.now }
        ensures { slice_get self.now index ≡ Some result.now }
    {
        self.set.get_index(index).unwrap()
    }

    /// Whether a variable is among them. Takes no memory.
    pub fn has(&self, variable: &Variable) -> bool
        ensures { result ≡ list_any (same_variable variable.now) self.now }
    {
        self.set.contains(variable)
    }

    /// Puts a variable at the end, where it is new. Fails where memory runs out, and they are then as before.
    pub fn put(&mut self, variable: Variable) -> Mem<()>
        ensures ok { OnOk result (self.new ≡ insert_key same_variable self.old variable) }
        ensures err { OnErr result (self.new ≡ self.old) }
        ensures memory { IfErr result (λ w. w ≡ Memory) }
    {
        self.set.insert(variable)?;
        Ok(())
    }
}

/// What puts the variables of a kind into a set.
#[derive(Drop)]
struct Collector {
    kind: Kind,
    found: Variables,
}

impl Visitor for Collector {
    ghost use Rattle.std.specs.Prelude.{◌≡◌, if◌then◌else◌};
    ghost use Rattle.indexmap.specs.IndexSet.{insert_key};
    ghost use Rattle.iv_text.specs.declared.want.Want.TheVariants.{Memory};
    ghost use Rattle.iv_variables.specs.Variables.{same_variable};
    ghost use Rattle.iv_variables.specs.Firsts.{of_kind};

    ghost step = { λ c v. record { kind = c.kind; found = if of_kind c.kind v then insert_key same_variable c.found v else c.found } };

    ghost fails = { λ v w. w ≡ Memory };

    fn fixed_type(&mut self, text: &Text) -> Mem<()> {
        if self.kind.fixed_type(text) {
            self.found.put(Variable::FixedType(text.copy()?))
        } else {
            Ok(())
        }
    }

    fn schematic_type(&mut self, name: &Name) -> Mem<()> {
        if self.kind.schematic_type(name) {
            self.found.put(Variable::SchematicType(name.copy()?))
        } else {
            Ok(())
        }
    }

    fn free(&mut self, name: &Name, typ: &Typ) -> Mem<()> {
        if self.kind.free(name, typ) {
            self.found.put(Variable::Free(name.copy()?, typ.copy()?))
        } else {
            Ok(())
        }
    }

    fn schematic(&mut self, name: &Name, typ: &Typ) -> Mem<()> {
        if self.kind.schematic(name, typ) {
            self.found
                .put(Variable::Schematic(name.copy()?, typ.copy()?))
        } else {
            Ok(())
        }
    }
}

impl Variables {
    /// The variables of a kind in a term, each once, in the order in which they first occur. Fails where memory runs out.
    pub fn of_term(alloc: Global, kind: Kind, t: &Term) -> Mem<Variables>
        ensures ok { IfOk result (λ r. r ≡ firsts (filter (of_kind kind) (variables t.now))) }
        ensures memory { IfErr result (λ w. w ≡ Memory) }
    {
        let mut collector = Collector {
            kind,
            found: Variables::new(alloc),
        };
        each(t, &mut collector)?;
        Ok(collector.found)
    }

    /// Those of some terms. Fails where memory runs out.
    pub fn of_terms(alloc: Global, kind: Kind, ts: &Terms) -> Mem<Variables>
        ensures ok { IfOk result (λ r. r ≡ firsts (filter (of_kind kind) (terms_variables ts.now))) }
        ensures memory { IfErr result (λ w. w ≡ Memory) }
    {
        let mut collector = Collector {
            kind,
            found: Variables::new(alloc),
        };
        each_in_terms(ts, &mut collector)?;
        Ok(collector.found)
    }

    /// Those of a type. Fails where memory runs out.
    pub fn of_typ(alloc: Global, kind: Kind, a: &Typ) -> Mem<Variables>
        ensures ok { IfOk result (λ r. r ≡ firsts (filter (of_kind kind) (typ_variables a.now))) }
        ensures memory { IfErr result (λ w. w ≡ Memory) }
    {
        let mut collector = Collector {
            kind,
            found: Variables::new(alloc),
        };
        each_in_typ(a, &mut collector)?;
        Ok(collector.found)
    }
}
