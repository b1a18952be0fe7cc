ghost use Rattle.std.specs.Prelude.{◌≡◌, [], Some, None, IfOk, IfErr, OnOk};
ghost use Rattle.iv_text.specs.declared.name.Name.{Name};
ghost use Rattle.iv_term.specs.declared.typ.Typ.{Typ};
ghost use Rattle.iv_term.specs.declared.typ.Typ.TheBlock.{Schematic};
ghost use Rattle.iv_text.specs.declared.want.Want.TheVariants.{Memory};
ghost use Rattle.iv_subst.specs.declared.no_unify.NoUnify.TheVariants.{Clash};
ghost use Rattle.iv_subst.specs.TySubst.{put_typ, occurs, at};
ghost use Rattle.iv_subst.specs.Unifier.{IsUnifier, IsSolved, unified, unified_under};
ghost use Rattle.iv_subst.specs.Solved.{solved, AreSolved};

use crate::heads::{head, is_inside};
use crate::no_unify::NoUnify;
use crate::puts::{replaced, spread};
use crate::ty_subst::TySubst;
use crate::unify::unify;
use iv_term::Typ;
use iv_text::{Mem, Name as VarName, new_or_copy};
use std::alloc::Global;
use std::marker::Model;

/// Types that unification assigned to schematic variables. They are kept as they were found, so that an assignment
/// copies one node; contracts see the map with each put in all others.
#[derive(Drop)]
pub struct Solved {
    entries: TySubst,
}

impl Model for Solved {
    ghost use Rattle.std.specs.Coded.{codes};
    ghost use Rattle.iv_subst.specs.contracts.ty_subst.TySubst as a_subst;
    ghost use Rattle.iv_subst.specs.TySubst.{TyMap};
    ghost use Rattle.iv_subst.specs.Solved.{solved, AreSolved};

    ghost Value = { TyMap };

    ghost coded = { Prim.hlevel (codes, a_subst.the_row.coded) };

    ghost view = { λ s. solved s.entries };

    ghost invariant = { λ s. AreSolved s.entries };
}

impl Solved {
    /// Nothing assigned yet.
    pub fn new(alloc: Global) -> Solved
        ensures { result ≡ [] }
    {
        Solved {
            entries: TySubst::new(alloc),
        }
    }

    /// What a type is under the assignments, as far as its constructor: variables are followed, and no type is made.
    pub fn head<'a>(&'a self, typ: &'a Typ) -> &'a Typ
        ensures same { put_typ (at self.now) result.now ≡ put_typ (at self.now) typ.now }
        ensures head { (y : Name) → result.now ≡ Schematic y → at self.now y ≡ Schematic y }
    {
        head(&self.entries, typ)
    }

    /// Whether a variable stands in a type under the assignments. Takes no memory, so a type that is shared is walked at
    /// each occurrence.
    pub fn is_inside(&self, name: &VarName, typ: &Typ) -> bool
        ensures { result ≡ occurs name.now (put_typ (at self.now) typ.now) }
    {
        is_inside(&self.entries, name, typ)
    }

    /// A type under the assignments. What holds no assigned variable is shared. Fails where memory runs out.
    pub fn apply_typ(&self, alloc: Global, typ: &Typ) -> Mem<Typ>
        ensures ok { IfOk result (λ t. t ≡ put_typ (at self.now) typ.now) }
        ensures memory { IfErr result (λ w. w ≡ Memory) }
    {
        new_or_copy(replaced(&self.entries, alloc, typ)?, typ)
    }

    /// All assignments as a map, each with the others put in. Fails where memory runs out.
    pub fn to_subst(&self, alloc: Global) -> Mem<TySubst>
        ensures ok { IfOk result (λ s. s ≡ self.now) }
        ensures memory { IfErr result (λ w. w ≡ Memory) }
    {
        spread(&self.entries, alloc)
    }

    /// An equal value; its types are shared. Fails where memory runs out.
    pub fn copy(&self, alloc: Global) -> Mem<Solved>
        ensures ok { IfOk result (λ s. s ≡ self.now) }
        ensures memory { IfErr result (λ w. w ≡ Memory) }
    {
        Ok(Solved {
            entries: self.entries.copy(alloc)?,
        })
    }

    /// Adds the assignments that make both types equal, and no more: from left to right and depth first, a variable on
    /// the left before one on the right. `Clash` comes exactly where no substitution makes the types under the earlier
    /// assignments equal, `Memory` where memory runs out; after either, some of the assignments may have been added.
    /// (Robinson 1965.)
    pub fn unify(&mut self, alloc: Global, a: &Typ, b: &Typ) -> Result<(), NoUnify>
        ensures ok { OnOk result (unified a.now b.now self.old ≡ Some self.new) }
        ensures equal { OnOk result (put_typ (at self.new) a.now ≡ put_typ (at self.new) b.now) }
        ensures most_general { OnOk result (IsSolved self.old (put_typ (at self.old) a.now) (put_typ (at self.old) b.now) self.new) }
        ensures clash { IfErr result (λ e. e ≡ Clash → unified a.now b.now self.old ≡ None) }
        ensures no_unifier { IfErr result (λ e. e ≡ Clash → (g : Name → Typ)
            → IsUnifier g (put_typ (at self.old) a.now) (put_typ (at self.old) b.now) → ⊥) }
    {
        unify(&mut self.entries, alloc, a, b)
    }
}

/// The map and then a most general unifier of both types under it: from left to right and depth first, a variable on the
/// left before one on the right. `Clash` comes exactly where no substitution makes them equal, `Memory` where memory
/// runs out. (Robinson 1965.)
pub fn unify_types(alloc: Global, a: &Typ, b: &Typ, s: &TySubst) -> Result<TySubst, NoUnify>
    ensures ok { IfOk result (λ r. unified_under a.now b.now s.now ≡ Some r) }
    ensures equal { IfOk result (λ r. put_typ (at r) a.now ≡ put_typ (at r) b.now) }
    ensures most_general { IfOk result (λ r. IsSolved s.now (put_typ (at s.now) a.now) (put_typ (at s.now) b.now) r) }
    ensures clash { IfErr result (λ e. e ≡ Clash → unified_under a.now b.now s.now ≡ None) }
    ensures no_unifier { IfErr result (λ e. e ≡ Clash → (g : Name → Typ)
        → IsUnifier g (put_typ (at s.now) a.now) (put_typ (at s.now) b.now) → ⊥) }
{
    let left = s.apply_typ(alloc, a)?;
    let right = s.apply_typ(alloc, b)?;
    let mut solved = Solved::new(alloc);
    solved.unify(alloc, &left, &right)?;
    let found = solved.to_subst(alloc)?;
    let both = s.compose(alloc, &found)?;
    Ok(both)
}
