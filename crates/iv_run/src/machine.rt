ghost use Rattle.std.specs.Prelude.{◌≡◌, ◌≢◌, [], ◌∷◌, ◌++◌, map, Some, option_copied, OnOk, OnErr, IfErr};
ghost use Rattle.std.specs.Str.{bytes_eq};
ghost use Rattle.iv_text.specs.declared.want.Want.TheVariants.{Memory};
ghost use Rattle.iv_run.specs.Machine.{start, Theory, executed, is_pure, other_import, header_row, header_at, prose_at, lemma_row, lemma_at, by_at, oops_at, end_at, theorem_of, Accepted, Refused};
ghost use Rattle.iv_run.specs.Run.{is_ended};
ghost use Rattle.iv_run.specs.Closed.{IsClosed};
ghost use Rattle.iv_run.specs.Sound.{IsSound, IsPhaseSound, machine_of, stage_of, seen};

use crate::claim::Claim;
use crate::names::Names;
use crate::refusal::{Mode, Refusal};
use iv_forms::Items;
use iv_kernel::{NamedThm, Theorems, Thm};
use iv_statement::Parts;
use iv_statement::commands::{Command, Form};
use iv_text::{Mem, Text};
use std::alloc::Global;
use std::mem::replace;

/// Where the document stands.
#[derive(Drop)]
pub enum Phase {
    /// Nothing was read yet.
    Start,
    /// Outside of proofs.
    Theory,
    /// In the proof of a claim.
    Prove(Claim),
    /// Behind `end`.
    Ended,
}

/// Whether a name is `Pure`.
fn is_pure(name: &Text) -> bool
    ensures { result ≡ is_pure name.now }
{
    name.is_chars(&['P', 'u', 'r', 'e'])
}

/// The first import other than `Pure`.
fn other_import(imports: &[Text]) -> Option<&Text>
    ensures { option_copied result ≡ other_import imports.now }
{
    for import in imports {
        if !is_pure(import) {
            return Some(import);
        }
    }
    None
}

/// Puts a theorem under its name behind the others. Fails where memory runs out, and they are then as before.
fn push_named(theorems: &mut Theorems, label: &Text, thm: Thm) -> Mem<()>
    ensures ok { OnOk result (theorems.new ≡ theorems.old ++ record { name = Some label.now; thm = thm } ∷ []) }
    ensures err { OnErr result (theorems.new ≡ theorems.old) }
    ensures memory { IfErr result (λ w. w ≡ Memory) }
{
    match label.copy() {
        Ok(name) => theorems.push(NamedThm {
            name: Some(name),
            thm,
        }),
        Err(want) => {
            drop(thm);
            Err(want)
        }
    }
}

/// The machine that executes the commands of a document.
#[derive(Drop)]
pub struct Vm {
    alloc: Global,
    phase: Phase,
    theorems: Theorems,
    names: Names,
}

impl Vm {
    /// A machine before any command.
    pub fn new(alloc: Global) -> Vm
        ensures state { machine_of result ≡ start }
        ensures sound { IsSound result }
    {
        Vm {
            alloc,
            phase: Phase::Start,
            theorems: Theorems::new(alloc),
            names: Names::new(alloc),
        }
    }

    /// The theorems that were finished so far, in order.
    pub fn theorems(&self) -> &Theorems
        ensures { result.now ≡ self.now.theorems }
    {
        &self.theorems
    }

    /// Whether the document has ended.
    pub fn is_ended(&self) -> bool
        ensures { result ≡ is_ended (machine_of self.now).stage }
    {
        match &self.phase {
            Phase::Ended => true,
            Phase::Start => false,
            Phase::Theory => false,
            Phase::Prove(_claim) => false,
        }
    }

    /// The finished theorems, in order, and no machine any more.
    pub fn into_theorems(self) -> Theorems
        ensures { result ≡ self.theorems }
    {
        let Vm {
            theorems,
            phase,
            names,
            ..
        } = self;
        drop(phase);
        drop(names);
        theorems
    }

    /// Executes a command. A refused one leaves the state as it was, and so does want of memory.
    pub fn exec(&mut self, command: &Command) -> Result<(), Refusal>
        requires { IsSound self.old }
        ensures accepted { OnOk result (executed command.now (machine_of self.old) ≡ Accepted (machine_of self.new)) }
        ensures refused { IfErr result (λ r. r ≢ Refusal.Memory → executed command.now (machine_of self.old) ≡ Refused r) }
        ensures keeps { OnErr result (machine_of self.new ≡ machine_of self.old) }
        ensures sound { IsSound self.new }
    {
        match &command.form {
            Form::Header(imports) => self.header(imports),
            Form::Prose => self.prose(),
            Form::Lemma(name, parts) => self.lemma(name, parts),
            Form::ByAssumption => self.by_assumption(),
            Form::Oops => self.oops(),
            Form::End => self.end(),
            Form::Unreadable(at) => Err(Refusal::Syntax(*at)),
        }
    }

    /// Goes on to a phase.
    fn enter(&mut self, phase: Phase)
        requires sound { IsSound self.old }
        requires phase { IsPhaseSound phase }
        ensures state { machine_of self.new ≡ record { stage = stage_of phase; finished = map seen self.old.theorems } }
        ensures sound { IsSound self.new }
    {
        drop(replace(&mut self.phase, phase));
    }

    /// Begins the theory.
    fn header(&mut self, imports: &Items<Text>) -> Result<(), Refusal>
        requires { IsSound self.old }
        ensures accepted { OnOk result (header_at imports.now (stage_of self.old.phase) (map seen self.old.theorems) ≡ Accepted (machine_of self.new)) }
        ensures refused { IfErr result (λ r. r ≢ Refusal.Memory → header_at imports.now (stage_of self.old.phase) (map seen self.old.theorems) ≡ Refused r) }
        ensures keeps { OnErr result (machine_of self.new ≡ machine_of self.old) }
        ensures sound { IsSound self.new }
    {
        match &self.phase {
            Phase::Start => self.begin(imports.as_slice()),
            Phase::Theory => Err(Refusal::Mode(Mode::Theory)),
            Phase::Prove(_claim) => Err(Refusal::Mode(Mode::Prove)),
            Phase::Ended => Err(Refusal::Mode(Mode::Ended)),
        }
    }

    /// Begins a theory that imports `Pure` alone.
    fn begin(&mut self, imports: &[Text]) -> Result<(), Refusal>
        requires { IsSound self.old }
        ensures accepted { OnOk result (header_row (other_import imports.now) (map seen self.old.theorems) ≡ Accepted (machine_of self.new)) }
        ensures refused { IfErr result (λ r. r ≢ Refusal.Memory → header_row (other_import imports.now) (map seen self.old.theorems) ≡ Refused r) }
        ensures keeps { OnErr result (machine_of self.new ≡ machine_of self.old) }
        ensures sound { IsSound self.new }
    {
        match other_import(imports) {
            Some(name) => Err(Refusal::Name(name.copy()?)),
            None => {
                self.enter(Phase::Theory);
                Ok(())
            }
        }
    }

    /// Passes a text.
    fn prose(&self) -> Result<(), Refusal>
        ensures accepted { OnOk result (prose_at (stage_of self.now.phase) (map seen self.now.theorems) ≡ Accepted (machine_of self.now)) }
        ensures refused { IfErr result (λ r. prose_at (stage_of self.now.phase) (map seen self.now.theorems) ≡ Refused r) }
    {
        match &self.phase {
            Phase::Ended => Err(Refusal::Mode(Mode::Ended)),
            Phase::Start => Ok(()),
            Phase::Theory => Ok(()),
            Phase::Prove(_claim) => Ok(()),
        }
    }

    /// States a lemma.
    fn lemma(&mut self, name: &Text, parts: &Parts) -> Result<(), Refusal>
        requires { IsSound self.old }
        ensures accepted { OnOk result (lemma_at name.now parts.now (stage_of self.old.phase) (map seen self.old.theorems) ≡ Accepted (machine_of self.new)) }
        ensures refused { IfErr result (λ r. r ≢ Refusal.Memory → lemma_at name.now parts.now (stage_of self.old.phase) (map seen self.old.theorems) ≡ Refused r) }
        ensures keeps { OnErr result (machine_of self.new ≡ machine_of self.old) }
        ensures sound { IsSound self.new }
    {
        match &self.phase {
            Phase::Start => self.claim(name, parts),
            Phase::Theory => self.claim(name, parts),
            Phase::Prove(_claim) => Err(Refusal::Mode(Mode::Prove)),
            Phase::Ended => Err(Refusal::Mode(Mode::Ended)),
        }
    }

    /// Opens the claim of a lemma whose name is new.
    fn claim(&mut self, name: &Text, parts: &Parts) -> Result<(), Refusal>
        requires { IsSound self.old }
        ensures accepted { OnOk result (lemma_row name.now parts.now (map seen self.old.theorems) ≡ Accepted (machine_of self.new)) }
        ensures refused { IfErr result (λ r. r ≢ Refusal.Memory → lemma_row name.now parts.now (map seen self.old.theorems) ≡ Refused r) }
        ensures keeps { OnErr result (machine_of self.new ≡ machine_of self.old) }
        ensures sound { IsSound self.new }
    {
        if self.names.has(name) {
            return Err(Refusal::Name(name.copy()?));
        }
        let claim = Claim::open(self.alloc, name, parts)?;
        self.enter(Phase::Prove(claim));
        Ok(())
    }

    /// Finishes a claim by assumption.
    fn by_assumption(&mut self) -> Result<(), Refusal>
        requires { IsSound self.old }
        ensures accepted { OnOk result (by_at (stage_of self.old.phase) (map seen self.old.theorems) ≡ Accepted (machine_of self.new)) }
        ensures refused { IfErr result (λ r. r ≢ Refusal.Memory → by_at (stage_of self.old.phase) (map seen self.old.theorems) ≡ Refused r) }
        ensures keeps { OnErr result (machine_of self.new ≡ machine_of self.old) }
        ensures sound { IsSound self.new }
    {
        match &self.phase {
            Phase::Prove(claim) => {
                let label = claim.label.copy()?;
                match claim.prove(self.alloc)? {
                    Some(thm) => self.keep(label, thm),
                    None => Err(Refusal::Empty),
                }
            }
            Phase::Start => Err(Refusal::Mode(Mode::Start)),
            Phase::Theory => Err(Refusal::Mode(Mode::Theory)),
            Phase::Ended => Err(Refusal::Mode(Mode::Ended)),
        }
    }

    /// Keeps a finished theorem under its name.
    fn keep(&mut self, label: Text, thm: Thm) -> Result<(), Refusal>
        requires sound { IsSound self.old }
        requires closed { IsClosed thm }
        ensures kept { OnOk result (machine_of self.new ≡ record { stage = Theory; finished = map seen self.old.theorems ++ record { name = Some label; prop = thm.prop } ∷ [] }) }
        ensures refused { IfErr result (λ r. r ≡ Refusal.Memory) }
        ensures keeps { OnErr result (machine_of self.new ≡ machine_of self.old) }
        ensures sound { IsSound self.new }
    {
        push_named(&mut self.theorems, &label, thm)?;
        let added = self.names.add(self.alloc, &label);
        drop(label);
        if let Err(want) = added {
            drop(self.theorems.pop());
            return Err(Refusal::from(want));
        }
        self.enter(Phase::Theory);
        Ok(())
    }

    /// Gives a proof up.
    fn oops(&mut self) -> Result<(), Refusal>
        requires { IsSound self.old }
        ensures accepted { OnOk result (oops_at (stage_of self.old.phase) (map seen self.old.theorems) ≡ Accepted (machine_of self.new)) }
        ensures refused { IfErr result (λ r. r ≢ Refusal.Memory → oops_at (stage_of self.old.phase) (map seen self.old.theorems) ≡ Refused r) }
        ensures keeps { OnErr result (machine_of self.new ≡ machine_of self.old) }
        ensures sound { IsSound self.new }
    {
        match &self.phase {
            Phase::Prove(_claim) => {
                self.enter(Phase::Theory);
                Ok(())
            }
            Phase::Start => Err(Refusal::Mode(Mode::Start)),
            Phase::Theory => Err(Refusal::Mode(Mode::Theory)),
            Phase::Ended => Err(Refusal::Mode(Mode::Ended)),
        }
    }

    /// Ends the document.
    fn end(&mut self) -> Result<(), Refusal>
        requires { IsSound self.old }
        ensures accepted { OnOk result (end_at (stage_of self.old.phase) (map seen self.old.theorems) ≡ Accepted (machine_of self.new)) }
        ensures refused { IfErr result (λ r. r ≢ Refusal.Memory → end_at (stage_of self.old.phase) (map seen self.old.theorems) ≡ Refused r) }
        ensures keeps { OnErr result (machine_of self.new ≡ machine_of self.old) }
        ensures sound { IsSound self.new }
    {
        match &self.phase {
            Phase::Start => {
                self.enter(Phase::Ended);
                Ok(())
            }
            Phase::Theory => {
                self.enter(Phase::Ended);
                Ok(())
            }
            Phase::Prove(_claim) => Err(Refusal::Mode(Mode::Prove)),
            Phase::Ended => Err(Refusal::Mode(Mode::Ended)),
        }
    }
}
