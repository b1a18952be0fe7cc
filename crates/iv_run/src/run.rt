ghost use Rattle.std.specs.Prelude.{◌≡◌, ◌≢◌, ℕ, ◌+◌, ◌≤◌, ◌<◌, ◌⊎◌, Bool, ◌&&◌, Err, List, [], ◌∷◌, ◌++◌, Some, map, length, All, AllPairs, drop, None, string_bytes, encode_utf8_all, IfOk, IfErr, OnOk, OnErr, if◌then◌else◌};
ghost use Rattle.std.specs.List.{flat_map};
ghost use Rattle.iv_text.specs.declared.want.Want.TheVariants.{Memory};
ghost use Rattle.iv_io.specs.Counts.{Rose, RoseAbove};
ghost use Rattle.iv_report.specs.Place.{IsAt};
ghost use Rattle.iv_statement.specs.declared.commands.Command.{Command};
ghost use Rattle.iv_statement.specs.Command.{IsNoLater, StandsIn, IsCommands, HasCommands};
ghost use Rattle.iv_run.specs.Refusal.{place_of};
ghost use Rattle.iv_run.specs.Report.{count_line};
ghost use Rattle.iv_words.specs.Words.{task_of};
ghost use Rattle.iv_words.specs.declared.words.Task.{Task};
ghost use Rattle.iv_run.specs.Machine.{start, executed, next};
ghost use Rattle.iv_run.specs.Sound.{IsSound, AllClosed, machine_of, seen};
ghost use Rattle.iv_kernel.specs.declared.theorems.NamedThm.{NamedThm};
ghost use Rattle.iv_run.specs.Answer.{answer_of, stopped_by, IsRun, IsAnswered, IsExecuted, IsUnread};
ghost use Rattle.iv_run.specs.Run.{AllDerivable, line_of_finished, refused_line, lines_of, report_from, state_behind, all_accepted, is_accepted, is_ended, refusals_in, counts_behind, reported, report_of, theorems_of, is_done, document_limit, IsFrontOf};

use crate::law::theorems_are_derivable;
use crate::machine::Vm;
use crate::refusal::Refusal;
use crate::report::{count_line, refusal_line, theorem_line};
use crate::status::Status;
use iv_io::{Failed, ReadError, Sink, Source, read_all, write_all};
use iv_kernel::{NamedThm, Theorems};
use iv_lex::letters::rest_from;
use iv_report::{Cursor, LIMIT};
use iv_statement::commands::{Command, commands};
use iv_text::{Mem, Want};
use iv_words::{BadWords, Task, task_given};
use std::alloc::Global;

/// What a command gave: whether it was accepted, and its part of the report as bytes.
#[derive(Drop)]
pub struct Reported {
    pub accepted: bool,
    pub bytes: Vec<u8>,
}

/// Why a run was cut short.
#[derive(Clone, Copy, Debug, PartialEq, Eq)]
pub enum Stop {
    /// Memory ran out.
    Memory,
    /// The sink failed.
    WriteFault,
}

impl From<Want> for Stop {
    ghost use Rattle.std.specs.Prelude.{◌≡◌};
    ghost use Rattle.iv_run.specs.declared.run.Stop.TheVariants.{Memory};

    // no number of a document of 4 MiB is too great
    ghost from_gives = { λ _ s. s ≡ Memory };

    fn from(_want: Want) -> Stop {
        Stop::Memory
    }
}

impl From<Failed> for Stop {
    ghost use Rattle.std.specs.Prelude.{◌≡◌};
    ghost use Rattle.iv_run.specs.declared.run.Stop.TheVariants.{WriteFault};

    ghost from_gives = { λ _ s. s ≡ WriteFault };

    fn from(_failed: Failed) -> Stop {
        Stop::WriteFault
    }
}

/// Puts the line of a finished theorem behind the others, as bytes. Fails where memory runs out.
fn push_theorem(alloc: Global, bytes: &mut Vec<u8>, one: &NamedThm) -> Mem<()>
    ensures ok { OnOk result (bytes.new.items ≡ bytes.old.items ++ encode_utf8_all (line_of_finished (seen one.now))) }
    ensures memory { IfErr result (λ w. w ≡ Memory) }
{
    let line = theorem_line(alloc, one.name.as_ref(), one.thm.prop())?;
    let utf8 = line.to_utf8(alloc);
    drop(line);
    let utf8 = utf8?;
    bytes.extend_from_slice(utf8.as_slice())?;
    Ok(())
}

/// The lines of some finished theorems, as bytes. Fails where memory runs out.
pub fn theorem_bytes(alloc: Global, named: &[NamedThm]) -> Mem<Vec<u8>>
    ensures ok { IfOk result (λ v. v.items ≡ encode_utf8_all (flat_map line_of_finished (map seen named.now))) }
    ensures memory { IfErr result (λ w. w ≡ Memory) }
{
    let mut bytes = Vec::new(alloc);
    for one in named {
        push_theorem(alloc, &mut bytes, one)?;
    }
    Ok(bytes)
}

/// The line of a command that is refused, as bytes. Fails where memory runs out.
pub fn refusal_bytes(
    alloc: Global,
    document: &[u8],
    command: &Command,
    refusal: &Refusal,
    cursor: &mut Cursor,
) -> Mem<Vec<u8>>
    requires small { length document.now ≤ LIMIT }
    requires forward { cursor.old.at.0 ≤ command.now.at.0 }
    requires own_forward { command.now.at.0 ≤ (place_of command.now.at refusal.now).0 }
    requires own_inside { (place_of command.now.at refusal.now).0 ≤ length document.now }
    requires place { IsAt document.now cursor.old }
    ensures ok { IfOk result (λ v. v.items ≡ encode_utf8_all (refused_line document.now command.now refusal.now)) }
    ensures at { cursor.new.at.0 ≡ command.now.at.0 }
    ensures place { IsAt document.now cursor.new }
    ensures memory { IfErr result (λ w. w ≡ Memory) }
{
    let at = cursor.advance(document, command.at);
    let mut ahead = *cursor;
    let own = ahead.advance(document, refusal.place_or(command.at));
    let text = refusal_line(alloc, at, &command.word, own, refusal)?;
    text.to_utf8(alloc)
}

/// Executes a command and says what is reported of it. Fails where memory runs out; the state is then that
/// before the command or behind it.
pub fn step(
    alloc: Global,
    document: &[u8],
    command: &Command,
    vm: &mut Vm,
    cursor: &mut Cursor,
) -> Mem<Reported>
    requires small { length document.now ≤ LIMIT }
    requires inside { StandsIn document.now command.now }
    requires forward { cursor.old.at.0 ≤ command.now.at.0 }
    requires place { IsAt document.now cursor.old }
    requires sound { IsSound vm.old }
    ensures accepted { IfOk result (λ r. r.accepted ≡ is_accepted (executed command.now (machine_of vm.old))) }
    ensures bytes { IfOk result (λ r. r.bytes.items ≡ encode_utf8_all
        (lines_of document.now command.now (machine_of vm.old) (executed command.now (machine_of vm.old)))) }
    ensures state { OnOk result (machine_of vm.new ≡ next command.now (machine_of vm.old)) }
    ensures stopped { OnErr result ((machine_of vm.new ≡ machine_of vm.old) ⊎ (machine_of vm.new ≡ next command.now (machine_of vm.old))) }
    ensures sound { IsSound vm.new }
    ensures at { cursor.new.at.0 ≤ command.now.at.0 }
    ensures place { IsAt document.now cursor.new }
    ensures memory { IfErr result (λ w. w ≡ Memory) }
{
    let before = vm.theorems().len();
    match vm.exec(command) {
        Ok(()) => {
            let bytes = new_theorem_bytes(alloc, vm.theorems(), before)?;
            Ok(Reported {
                accepted: true,
                bytes,
            })
        }
        Err(Refusal::Memory) => Err(Want::Memory),
        Err(refusal) => {
            let bytes = refusal_bytes(alloc, document, command, &refusal, cursor);
            drop(refusal);
            Ok(Reported {
                accepted: false,
                bytes: bytes?,
            })
        }
    }
}

/// The lines of the theorems behind the first `before`, as bytes. Fails where memory runs out.
fn new_theorem_bytes(alloc: Global, theorems: &Theorems, before: usize) -> Mem<Vec<u8>>
    ensures ok { IfOk result (λ v. v.items ≡ encode_utf8_all (flat_map line_of_finished (drop before (map seen theorems.now)))) }
    ensures memory { IfErr result (λ w. w ≡ Memory) }
{
    if theorems.len() <= before {
        return Ok(Vec::new(alloc));
    }
    theorem_bytes(alloc, rest_from(theorems.as_slice(), before))
}

/// Whether both hold.
fn both(a: bool, b: bool) -> bool
    ensures { result ≡ (a && b) }
{
    a && b
}

/// Executes commands in order and writes the part of each before the next is executed. Says whether all were
/// accepted. Stops where memory runs out or the sink fails.
pub fn execute<K: Sink>(
    alloc: Global,
    document: &[u8],
    commands: &[Command],
    vm: &mut Vm,
    sink: &mut K,
) -> Result<bool, Stop>
    requires small { length document.now ≤ LIMIT }
    requires ordered { AllPairs IsNoLater commands.now }
    requires inside { All (StandsIn document.now) commands.now }
    requires sound { IsSound vm.old }
    ensures accepted { IfOk result (λ b. b ≡ all_accepted (machine_of vm.old) commands.now) }
    ensures state { OnOk result (machine_of vm.new ≡ state_behind (machine_of vm.old) commands.now) }
    ensures written { OnOk result ((w : List ℕ) → K.written sink.old ≡ Some w →
        K.written sink.new ≡ Some (w ++ encode_utf8_all (report_from document.now (machine_of vm.old) commands.now))) }
    ensures front { (w : List ℕ) → K.written sink.old ≡ Some w → (front : List ℕ) × ((K.written sink.new ≡ Some (w ++ front))
        × IsFrontOf front (encode_utf8_all (report_from document.now (machine_of vm.old) commands.now))) }
    ensures finished { IsFrontOf (machine_of vm.new).finished (state_behind (machine_of vm.old) commands.now).finished }
    ensures fault { result ≡ Err Stop.WriteFault → Rose (K.faults sink.old) (K.faults sink.new) }
    ensures faults_grow { K.faults sink.old ≤ K.faults sink.new }
    ensures sound { IsSound vm.new }
{
    let mut accepted = true;
    let mut cursor = Cursor::start();
    for command in commands {
        let reported = step(alloc, document, command, vm, &mut cursor)?;
        accepted = both(accepted, reported.accepted);
        let written = write_all(sink, reported.bytes.as_slice());
        drop(reported);
        written?;
    }
    Ok(accepted)
}

/// Executes a command and says whether it was accepted. Fails where memory runs out; the state is then as before.
fn accepts(vm: &mut Vm, command: &Command) -> Mem<bool>
    requires sound { IsSound vm.old }
    ensures accepted { IfOk result (λ b. b ≡ is_accepted (executed command.now (machine_of vm.old))) }
    ensures state { OnOk result (machine_of vm.new ≡ next command.now (machine_of vm.old)) }
    ensures stays { OnErr result (machine_of vm.new ≡ machine_of vm.old) }
    ensures sound { IsSound vm.new }
    ensures memory { IfErr result (λ w. w ≡ Memory) }
{
    match vm.exec(command) {
        Ok(()) => Ok(true),
        Err(Refusal::Memory) => Err(Want::Memory),
        Err(_refusal) => Ok(false),
    }
}

/// What a command adds to the number of refused ones.
fn one_unless(accepted: bool) -> u64
    ensures value { result ≡ (if accepted then 0 else 1) }
    ensures small { result ≤ 1 }
{
    if accepted { 0 } else { 1 }
}

/// Executes commands in order and says how many of them were refused. Fails where memory runs out.
pub fn count_refused(commands: &[Command], vm: &mut Vm) -> Mem<u64>
    requires sound { IsSound vm.old }
    ensures ok { IfOk result (λ n. n ≡ refusals_in (machine_of vm.old) commands.now) }
    ensures state { OnOk result (machine_of vm.new ≡ state_behind (machine_of vm.old) commands.now) }
    ensures finished { IsFrontOf (machine_of vm.new).finished (state_behind (machine_of vm.old) commands.now).finished }
    ensures sound { IsSound vm.new }
    ensures memory { IfErr result (λ w. w ≡ Memory) }
{
    let mut refused = 0;
    for command in commands {
        let accepted = accepts(vm, command)?;
        refused += one_unless(accepted);
    }
    Ok(refused)
}

/// The line of counts of a run, as bytes. Fails where memory runs out.
fn count_bytes(alloc: Global, vm: &Vm, refused: u64) -> Mem<Vec<u8>>
    ensures ok { IfOk result (λ v. v.items ≡ encode_utf8_all
        (count_line (length (machine_of vm.now).finished) refused (is_ended (machine_of vm.now).stage))) }
    ensures memory { IfErr result (λ w. w ≡ Memory) }
{
    let theorems = vm.theorems().len() as u64;
    let line = count_line(alloc, theorems, refused, vm.is_ended())?;
    line.to_utf8(alloc)
}

/// Executes commands in order and writes one line of counts behind them. Says whether all were accepted. Stops where
/// memory runs out or the sink fails.
pub fn tally<K: Sink>(
    alloc: Global,
    commands: &[Command],
    vm: &mut Vm,
    sink: &mut K,
) -> Result<bool, Stop>
    requires sound { IsSound vm.old }
    ensures accepted { IfOk result (λ b. b ≡ all_accepted (machine_of vm.old) commands.now) }
    ensures state { OnOk result (machine_of vm.new ≡ state_behind (machine_of vm.old) commands.now) }
    ensures written { OnOk result ((w : List ℕ) → K.written sink.old ≡ Some w →
        K.written sink.new ≡ Some (w ++ encode_utf8_all (counts_behind (machine_of vm.old) commands.now))) }
    ensures front { (w : List ℕ) → K.written sink.old ≡ Some w → (front : List ℕ) × ((K.written sink.new ≡ Some (w ++ front))
        × IsFrontOf front (encode_utf8_all (counts_behind (machine_of vm.old) commands.now))) }
    ensures finished { IsFrontOf (machine_of vm.new).finished (state_behind (machine_of vm.old) commands.now).finished }
    ensures fault { result ≡ Err Stop.WriteFault → Rose (K.faults sink.old) (K.faults sink.new) }
    ensures faults_grow { K.faults sink.old ≤ K.faults sink.new }
    ensures sound { IsSound vm.new }
{
    let refused = count_refused(commands, vm)?;
    let bytes = count_bytes(alloc, vm, refused)?;
    let written = write_all(sink, bytes.as_slice());
    drop(bytes);
    written?;
    Ok(refused == 0)
}

/// Executes commands in order and writes what the task reports of them. Says whether all were accepted. Stops where
/// memory runs out or the sink fails.
fn perform<K: Sink>(
    alloc: Global,
    task: Task,
    document: &[u8],
    commands: &[Command],
    vm: &mut Vm,
    sink: &mut K,
) -> Result<bool, Stop>
    requires small { length document.now ≤ LIMIT }
    requires ordered { AllPairs IsNoLater commands.now }
    requires inside { All (StandsIn document.now) commands.now }
    requires sound { IsSound vm.old }
    ensures accepted { IfOk result (λ b. b ≡ all_accepted (machine_of vm.old) commands.now) }
    ensures state { OnOk result (machine_of vm.new ≡ state_behind (machine_of vm.old) commands.now) }
    ensures written { OnOk result ((w : List ℕ) → K.written sink.old ≡ Some w →
        K.written sink.new ≡ Some (w ++ encode_utf8_all (reported task document.now (machine_of vm.old) commands.now))) }
    ensures front { (w : List ℕ) → K.written sink.old ≡ Some w → (front : List ℕ) × ((K.written sink.new ≡ Some (w ++ front))
        × IsFrontOf front (encode_utf8_all (reported task document.now (machine_of vm.old) commands.now))) }
    ensures finished { IsFrontOf (machine_of vm.new).finished (state_behind (machine_of vm.old) commands.now).finished }
    ensures fault { result ≡ Err Stop.WriteFault → Rose (K.faults sink.old) (K.faults sink.new) }
    ensures faults_grow { K.faults sink.old ≤ K.faults sink.new }
    ensures sound { IsSound vm.new }
{
    match task {
        Task::Check => execute(alloc, document, commands, vm, sink),
        Task::Count => tally(alloc, commands, vm, sink),
    }
}

/// The answer of a run.
fn status_of(run: Result<bool, Stop>, ended: bool) -> Status
    ensures ok { IfOk run (λ accepted. result ≡ answer_of (accepted && ended)) }
    ensures err { IfErr run (λ stop. result ≡ stopped_by stop) }
{
    match run {
        Ok(accepted) => {
            if accepted && ended {
                Status::Done
            } else {
                Status::Refused
            }
        }
        Err(Stop::Memory) => Status::Memory,
        Err(Stop::WriteFault) => Status::WriteFault,
    }
}

/// Executes the commands of a document, writes what the task reports of them, and puts their theorems at the end of
/// `proved`.
fn run_commands<K: Sink>(
    alloc: Global,
    task: Task,
    document: &[u8],
    commands: &[Command],
    sink: &mut K,
    proved: &mut Theorems,
) -> Status
    requires small { length document.now ≤ LIMIT }
    requires ordered { AllPairs IsNoLater commands.now }
    requires inside { All (StandsIn document.now) commands.now }
    ensures answers { IsRun result }
    ensures done { IsAnswered result → result ≡ answer_of (is_done commands.now) }
    ensures written { IsAnswered result → (w : List ℕ) → K.written sink.old ≡ Some w →
        K.written sink.new ≡ Some (w ++ report_of task document.now commands.now) }
    ensures front { (w : List ℕ) → K.written sink.old ≡ Some w → (front : List ℕ) × ((K.written sink.new ≡ Some (w ++ front))
        × IsFrontOf front (report_of task document.now commands.now)) }
    ensures theorems { IsAnswered result →
        (ts : List NamedThm) × ((proved.new ≡ proved.old ++ ts) × (map seen ts ≡ theorems_of commands.now)) }
    ensures some { (ts : List NamedThm) × ((proved.new ≡ proved.old ++ ts)
        × (AllClosed ts × IsFrontOf (map seen ts) (theorems_of commands.now))) }
    ensures fault { result ≡ Status.WriteFault → Rose (K.faults sink.old) (K.faults sink.new) }
    ensures faults_grow { K.faults sink.old ≤ K.faults sink.new }
{
    let mut vm = Vm::new(alloc);
    let run = perform(alloc, task, document, commands, &mut vm, sink);
    let status = status_of(run, vm.is_ended());
    match proved.append(vm.into_theorems()) {
        Ok(()) => status,
        Err(_want) => status.without_memory(),
    }
}

/// Executes a document, writes what the task reports of it, and puts its theorems at the end of `proved`.
pub fn check<K: Sink>(
    alloc: Global,
    task: Task,
    document: &[u8],
    sink: &mut K,
    proved: &mut Theorems,
) -> Status
    requires { length document.now ≤ LIMIT }
    ensures answers { IsRun result }
    ensures commands { IsExecuted result → HasCommands document.now }
    ensures done { IsAnswered result → (cs : List Command) → IsCommands document.now cs → result ≡ answer_of (is_done cs) }
    ensures written { IsAnswered result → (cs : List Command) → IsCommands document.now cs → (w : List ℕ) →
        K.written sink.old ≡ Some w → K.written sink.new ≡ Some (w ++ report_of task document.now cs) }
    ensures front { (cs : List Command) → IsCommands document.now cs → (w : List ℕ) → K.written sink.old ≡ Some w →
        (front : List ℕ) × ((K.written sink.new ≡ Some (w ++ front)) × IsFrontOf front (report_of task document.now cs)) }
    ensures theorems { IsAnswered result → (cs : List Command) → IsCommands document.now cs →
        (ts : List NamedThm) × ((proved.new ≡ proved.old ++ ts) × (map seen ts ≡ theorems_of cs)) }
    ensures closed { (ts : List NamedThm) × ((proved.new ≡ proved.old ++ ts) × (AllClosed ts
        × ((cs : List Command) → IsCommands document.now cs → IsFrontOf (map seen ts) (theorems_of cs)))) }
    ensures fault { result ≡ Status.WriteFault → Rose (K.faults sink.old) (K.faults sink.new) }
    ensures faults_grow { K.faults sink.old ≤ K.faults sink.new }
{
    match commands(alloc, document) {
        Ok(commands) => run_commands(alloc, task, document, commands.as_slice(), sink, proved),
        Err(_want) => Status::Memory,
    }
}

/// Reads the source to its end, executes the document, writes what the task reports of it, and puts its theorems at
/// the end of `proved`. It answers as [`run_isar`] does, but for `Usage`.
fn run_task<S: Source, K: Sink>(
    alloc: Global,
    task: Task,
    source: &mut S,
    sink: &mut K,
    proved: &mut Theorems,
) -> Status
    ensures no_usage { result ≢ Status.Usage }
    ensures unread { IsUnread result → (K.written sink.new ≡ K.written sink.old)
        × (K.faults sink.new ≡ K.faults sink.old) × (proved.new ≡ proved.old) }
    ensures too_large { result ≡ Status.TooLarge → RoseAbove document_limit (S.taken source.old) (S.taken source.new) }
    ensures too_large_told { result ≡ Status.TooLarge → (b : List ℕ) → S.left source.old ≡ Some b → document_limit < length b }
    ensures not_too_large { result ≢ Status.TooLarge → S.taken source.new ≤ S.taken source.old + document_limit }
    ensures read_to_the_end { IsExecuted result → (b : List ℕ) → S.left source.old ≡ Some b → S.left source.new ≡ Some [] }
    ensures read_fault { result ≡ Status.ReadFault → Rose (S.faults source.old) (S.faults source.new) }
    ensures write_fault { result ≡ Status.WriteFault → Rose (K.faults sink.old) (K.faults sink.new) }
    ensures never_number { result ≢ Status.Number }
    ensures commands { IsExecuted result → (b : List ℕ) → S.left source.old ≡ Some b → HasCommands b }
    ensures done { IsAnswered result → (b : List ℕ) → S.left source.old ≡ Some b → (cs : List Command) → IsCommands b cs →
        result ≡ answer_of (is_done cs) }
    ensures report { IsAnswered result → (b : List ℕ) → S.left source.old ≡ Some b → (cs : List Command) → IsCommands b cs →
        (w : List ℕ) → K.written sink.old ≡ Some w → K.written sink.new ≡ Some (w ++ report_of task b cs) }
    ensures front { (b : List ℕ) → S.left source.old ≡ Some b → (cs : List Command) → IsCommands b cs →
        (w : List ℕ) → K.written sink.old ≡ Some w →
        (front : List ℕ) × ((K.written sink.new ≡ Some (w ++ front)) × IsFrontOf front (report_of task b cs)) }
    ensures theorems { IsAnswered result → (b : List ℕ) → S.left source.old ≡ Some b → (cs : List Command) → IsCommands b cs →
        (ts : List NamedThm) × ((proved.new ≡ proved.old ++ ts) × (map seen ts ≡ theorems_of cs)) }
    ensures closed { (ts : List NamedThm) × ((proved.new ≡ proved.old ++ ts) × (AllClosed ts × ((b : List ℕ) →
        S.left source.old ≡ Some b → (cs : List Command) → IsCommands b cs → IsFrontOf (map seen ts) (theorems_of cs)))) }
{
    let document = match read_all(alloc, source, LIMIT) {
        Ok(document) => document,
        Err(ReadError::Failed) => return Status::ReadFault,
        Err(ReadError::TooLarge) => return Status::TooLarge,
        Err(ReadError::Memory) => return Status::Memory,
    };
    check(alloc, task, document.as_slice(), sink, proved)
}

/// Checks a document: reads the source to its end, executes the commands in order, writes the part of the report of
/// each before the next is executed, and puts the theorems at the end of `proved`. The words say what is reported: with
/// `check` a line for each theorem and each refused command, with `count` one line of counts at the end.
///
/// | Answer | Comes |
/// |---|---|
/// | `Done` | no command was refused, the last was `end`, and the whole report was written |
/// | `Refused` | a command was refused or `end` is missing, and the whole report was written |
/// | `Usage` | exactly where the words ask for no task, unless memory runs out; nothing is read or written |
/// | `Memory` | memory ran out; a front part of the report was written |
/// | `ReadFault` | only where the source's faults rose; nothing is written |
/// | `WriteFault` | only where the sink's faults rose; a front part of the report was written |
/// | `TooLarge` | exactly where more than 4,194,304 bytes were taken; nothing is written |
/// | `Number` | never, since no number of a document of 4,194,304 bytes is too great |
pub fn run_isar<S: Source, K: Sink>(
    alloc: Global,
    words: &[String],
    source: &mut S,
    sink: &mut K,
    proved: &mut Theorems,
) -> Status
    // the statuses
    ensures usage { result ≡ Status.Usage → task_of (map string_bytes words.now) ≡ None }
    ensures no_task { task_of (map string_bytes words.now) ≡ None → (result ≡ Status.Usage) ⊎ (result ≡ Status.Memory) }
    ensures no_task_reads_nothing { task_of (map string_bytes words.now) ≡ None → (S.left source.new ≡ S.left source.old)
        × (S.taken source.new ≡ S.taken source.old) × (S.faults source.new ≡ S.faults source.old) }
    ensures no_task_writes_nothing { task_of (map string_bytes words.now) ≡ None → (K.written sink.new ≡ K.written sink.old)
        × (K.faults sink.new ≡ K.faults sink.old) × (proved.new ≡ proved.old) }
    ensures unread { IsUnread result → (K.written sink.new ≡ K.written sink.old)
        × (K.faults sink.new ≡ K.faults sink.old) × (proved.new ≡ proved.old) }
    ensures too_large { result ≡ Status.TooLarge → RoseAbove document_limit (S.taken source.old) (S.taken source.new) }
    ensures too_large_told { result ≡ Status.TooLarge → (b : List ℕ) → S.left source.old ≡ Some b → document_limit < length b }
    ensures not_too_large { result ≢ Status.TooLarge → S.taken source.new ≤ S.taken source.old + document_limit }
    ensures read_to_the_end { IsExecuted result → (b : List ℕ) → S.left source.old ≡ Some b → S.left source.new ≡ Some [] }
    ensures read_fault { result ≡ Status.ReadFault → Rose (S.faults source.old) (S.faults source.new) }
    ensures write_fault { result ≡ Status.WriteFault → Rose (K.faults sink.old) (K.faults sink.new) }
    ensures never_number { result ≢ Status.Number }
    // the commands of the document, of which what follows speaks: there are such, and no others
    ensures commands { IsExecuted result → (b : List ℕ) → S.left source.old ≡ Some b → HasCommands b }
    ensures done { IsAnswered result → (b : List ℕ) → S.left source.old ≡ Some b → (cs : List Command) → IsCommands b cs →
        result ≡ answer_of (is_done cs) }
    // the report, whole after `Done` and `Refused`, and else a front part of it
    ensures report { IsAnswered result → (task : Task) → task_of (map string_bytes words.now) ≡ Some task →
        (b : List ℕ) → S.left source.old ≡ Some b → (cs : List Command) → IsCommands b cs →
        (w : List ℕ) → K.written sink.old ≡ Some w → K.written sink.new ≡ Some (w ++ report_of task b cs) }
    ensures front { (task : Task) → task_of (map string_bytes words.now) ≡ Some task →
        (b : List ℕ) → S.left source.old ≡ Some b → (cs : List Command) → IsCommands b cs →
        (w : List ℕ) → K.written sink.old ≡ Some w →
        (front : List ℕ) × ((K.written sink.new ≡ Some (w ++ front)) × IsFrontOf front (report_of task b cs)) }
    // the theorems, all after `Done` and `Refused`, and else the first of them; each keeps a derivation that
    // concludes it without hypotheses and rests on no axiom, whatever the source and the sink tell
    ensures theorems { IsAnswered result → (b : List ℕ) → S.left source.old ≡ Some b → (cs : List Command) → IsCommands b cs →
        (ts : List NamedThm) × ((proved.new ≡ proved.old ++ ts) × (map seen ts ≡ theorems_of cs)) }
    ensures closed { (ts : List NamedThm) × ((proved.new ≡ proved.old ++ ts) × (AllClosed ts × ((b : List ℕ) →
        S.left source.old ≡ Some b → (cs : List Command) → IsCommands b cs → IsFrontOf (map seen ts) (theorems_of cs)))) }
    // each theorem that any commands prove is derivable
    ensures derivable { (cs : List Command) → AllDerivable (theorems_of cs) }
{
    theorems_are_derivable();
    match task_given(alloc, words) {
        Ok(task) => run_task(alloc, task, source, sink, proved),
        Err(BadWords::Usage) => Status::Usage,
        Err(BadWords::Memory) => Status::Memory,
    }
}
