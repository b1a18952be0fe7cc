ghost use Rattle.std.specs.Prelude.{◌≡◌, [], ◌∷◌, ◌++◌, IfOk, IfErr, OnOk};
ghost use Rattle.iv_text.specs.declared.want.Want.TheVariants.{Memory};
ghost use Rattle.iv_term.specs.declared.term.Term.TheBlock.{Nil};
ghost use Rattle.iv_term.specs.Hyps.{without};
ghost use Rattle.iv_term.specs.Term.{imp, tm_cons};
ghost use Rattle.iv_rules.specs.Rules.{axioms_of};
ghost use Rattle.iv_run.specs.Statement.{free_var, schematic_var, statement_of, with_entry, with_entries, general, open_hyps};

use crate::statement::{free_var, name_of, schematic_var};
use iv_kernel::Thm;
use iv_rules::{FixedTypes, Instance, SchematicTypes, VarTerms};
use iv_term::Typ;
use iv_text::{Mem, Text};
use std::alloc::Global;

/// The theorem that a variable follows from itself. Fails where memory runs out.
fn assumed(alloc: Global, text: &Text) -> Mem<Thm>
    ensures prop { IfOk result (λ t. t.prop ≡ free_var text.now) }
    ensures hyps { IfOk result (λ t. t.hyps ≡ tm_cons (free_var text.now) Nil) }
    ensures axioms { IfOk result (λ t. axioms_of t.derivation ≡ []) }
    ensures memory { IfErr result (λ w. w ≡ Memory) }
{
    let variable = free_var(alloc, text)?;
    let thm = Thm::assume(alloc, &variable);
    drop(variable);
    thm
}

/// A theorem with a variable as one premise more, which is no hypothesis any more. Fails where memory runs out.
fn discharged(alloc: Global, text: &Text, thm: &Thm) -> Mem<Thm>
    ensures prop { IfOk result (λ t. t.prop ≡ imp (free_var text.now) thm.now.prop) }
    ensures hyps { IfOk result (λ t. t.hyps ≡ without (free_var text.now) thm.now.hyps) }
    ensures axioms { IfOk result (λ t. axioms_of t.derivation ≡ axioms_of thm.now.derivation) }
    ensures memory { IfErr result (λ w. w ≡ Memory) }
{
    let variable = free_var(alloc, text)?;
    let more = Thm::imp_intr(alloc, &variable, thm);
    drop(variable);
    more
}

/// The theorem that a statement follows from its conclusion, which is no hypothesis any more where it is a
/// premise too. Fails where memory runs out.
pub fn from_conclusion(alloc: Global, premises: &[Text], conclusion: &Text) -> Mem<Thm>
    ensures prop { IfOk result (λ t. t.prop ≡ statement_of free_var (premises.now ++ conclusion.now ∷ [])) }
    ensures hyps { IfOk result (λ t. t.hyps ≡ open_hyps premises.now conclusion.now) }
    ensures axioms { IfOk result (λ t. axioms_of t.derivation ≡ []) }
    ensures memory { IfErr result (λ w. w ≡ Memory) }
{
    let mut thm = assumed(alloc, conclusion)?;
    let mut at = premises.len();
    'premises: while at > 0 {
        at -= 1;
        let more = discharged(alloc, &premises[at], &thm);
        drop(thm);
        thm = more?;
    }
    Ok(thm)
}

/// Enters that the schematic variable of a text is put for its free one, where nothing is yet. Fails where memory
/// runs out.
fn push_entry(alloc: Global, text: &Text, entries: &mut VarTerms) -> Mem<()>
    ensures ok { OnOk result (entries.new ≡ with_entry text.now entries.old) }
    ensures memory { IfErr result (λ w. w ≡ Memory) }
{
    let name = name_of(text)?;
    let prop = Typ::prop(alloc)?;
    if entries.get(&name, &prop).is_some() {
        drop(name);
        drop(prop);
        return Ok(());
    }
    match schematic_var(alloc, text) {
        Ok(value) => {
            entries.push(name, prop, value)?;
            Ok(())
        }
        Err(want) => {
            drop(name);
            drop(prop);
            Err(want)
        }
    }
}

/// Entries that put the schematic variables of some texts for their free ones. Fails where memory runs out.
fn schematic_entries(alloc: Global, premises: &[Text], conclusion: &Text) -> Mem<VarTerms>
    ensures ok { IfOk result (λ s. s ≡ with_entries premises.now (with_entry conclusion.now [])) }
    ensures memory { IfErr result (λ w. w ≡ Memory) }
{
    let mut entries = VarTerms::new(alloc);
    push_entry(alloc, conclusion, &mut entries)?;
    for premise in premises {
        push_entry(alloc, premise, &mut entries)?;
    }
    Ok(entries)
}

/// What makes the free variables of a statement schematic. Fails where memory runs out.
fn generalising(alloc: Global, premises: &[Text], conclusion: &Text) -> Mem<Instance>
    ensures ok { IfOk result (λ s. s ≡ general (with_entries premises.now (with_entry conclusion.now []))) }
    ensures memory { IfErr result (λ w. w ≡ Memory) }
{
    let frees = schematic_entries(alloc, premises, conclusion)?;
    Ok(Instance {
        fixed: FixedTypes::new(alloc),
        types: SchematicTypes::new(alloc),
        frees,
        schematics: VarTerms::new(alloc),
    })
}

/// A proved statement with its free variables made schematic. Fails where memory runs out.
pub fn generalised(alloc: Global, thm: &Thm, premises: &[Text], conclusion: &Text) -> Mem<Thm>
    requires hyps { thm.now.hyps ≡ Nil }
    requires prop { thm.now.prop ≡ statement_of free_var (premises.now ++ conclusion.now ∷ []) }
    ensures prop { IfOk result (λ t. t.prop ≡ statement_of schematic_var (premises.now ++ conclusion.now ∷ [])) }
    ensures hyps { IfOk result (λ t. t.hyps ≡ Nil) }
    ensures axioms { IfOk result (λ t. axioms_of t.derivation ≡ axioms_of thm.now.derivation) }
    ensures memory { IfErr result (λ w. w ≡ Memory) }
{
    let instance = generalising(alloc, premises, conclusion)?;
    Thm::inst(alloc, &instance, thm)
}
