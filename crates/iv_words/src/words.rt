ghost use Rattle.std.specs.Prelude.{◌≡◌, ◌≢◌, ◌∷◌, [], List, map, codes, string_bytes, option_map, IfOk, Err, Some, None};
ghost use Rattle.clap.specs.Words.{app_of, kind_of};
ghost use Rattle.iv_text.specs.declared.want.Want.TheVariants.{Memory};
ghost use Rattle.iv_words.specs.Words.{isarvm, task_on, task_of, task_named};

use clap::error::ErrorKind;
use clap::{Arg, ArgAction, Command, Error};
use iv_text::{Mem, Want};
use std::alloc::{AllocError, Global};

/// What the program is asked to do.
#[derive(Clone, Copy, Debug, PartialEq, Eq)]
pub enum Task {
    /// Report each theorem and each refused command.
    Check,
    /// Report how many theorems and refused commands there are.
    Count,
}

/// Why no task is given.
#[derive(Clone, Copy, Debug, PartialEq, Eq)]
pub enum BadWords {
    /// The words have a fault.
    Usage,
    /// Memory ran out.
    Memory,
}

impl From<Want> for BadWords {
    ghost use Rattle.std.specs.Prelude.{◌≡◌};
    ghost use Rattle.iv_words.specs.declared.words.BadWords.TheVariants.{Memory};

    ghost from_gives = { λ _ b. b ≡ Memory };

    fn from(_want: Want) -> BadWords {
        BadWords::Memory
    }
}

impl From<AllocError> for BadWords {
    ghost use Rattle.std.specs.Prelude.{◌≡◌};
    ghost use Rattle.iv_words.specs.declared.words.BadWords.TheVariants.{Memory};

    ghost from_gives = { λ _ b. b ≡ Memory };

    fn from(_error: AllocError) -> BadWords {
        BadWords::Memory
    }
}

/// The words with the program's name in front. Fails where memory runs out.
fn with_name<'a>(alloc: Global, words: &'a [String]) -> Mem<Vec<&'a str>>
    ensures ok { IfOk result (λ v. map (λ s. s.now) v.items ≡ codes "isarvm" ∷ map string_bytes words.entry.now) }
{
    let mut line: Vec<&'a str> = Vec::new(alloc);
    line.push("isarvm")?;
    for word in words {
        line.push(word.as_str())?;
    }
    Ok(line)
}

/// The task of a mode.
fn task_named(mode: Option<&str>) -> Option<Task>
    ensures { result ≡ task_named (option_map (λ s. s.now) mode.entry) }
{
    match mode {
        Some(mode) if mode == "check" => Some(Task::Check),
        Some(mode) if mode == "count" => Some(Task::Count),
        _ => None,
    }
}

/// The command, as `clap` reads it. Fails where memory runs out.
fn isarvm<'a>(alloc: Global) -> Result<Command<'a>, AllocError>
    ensures { IfOk result (λ c. app_of c ≡ isarvm) }
{
    let mode = Arg::new(alloc, "MODE")
        .required(true)
        .action(ArgAction::Set);
    Command::new(alloc, "isarvm").arg(mode)
}

/// Why `clap` refused the words.
fn bad_words(error: &Error) -> BadWords
    ensures { result ≡ BadWords.Usage → kind_of error.now ≢ ErrorKind.OutOfMemory }
{
    match error.kind() {
        ErrorKind::OutOfMemory => BadWords::Memory,
        _ => BadWords::Usage,
    }
}

/// The task that a command line asks for, which begins with the program's name.
fn task_in<'a>(alloc: Global, line: &'a [&'a str]) -> Result<Task, BadWords>
    ensures task { IfOk result (λ t. task_on (map (λ s. s.now) line.entry.now) ≡ Some t) }
    ensures usage { result ≡ Err BadWords.Usage → task_on (map (λ s. s.now) line.entry.now) ≡ None }
{
    let command = isarvm(alloc)?;
    match command.try_get_matches_from(line) {
        Ok(matches) => task_named(matches.get_str("MODE")).ok_or(BadWords::Usage),
        Err(error) => Err(bad_words(&error)),
    }
}

/// The task that the words after the program's name ask for.
///
/// Fails with `Usage` where the words have a fault, as `clap` states it for a command with the one value `MODE`, or
/// `MODE` is other than `check` and `count`; and with `Memory` where memory runs out.
pub fn task_given(alloc: Global, words: &[String]) -> Result<Task, BadWords>
    ensures task { IfOk result (λ t. task_of (map string_bytes words.now) ≡ Some t) }
    ensures usage { result ≡ Err BadWords.Usage → task_of (map string_bytes words.now) ≡ None }
{
    let line = with_name(alloc, words)?;
    task_in(alloc, line.as_slice())
}
