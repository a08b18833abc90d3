//! What a command line may have.
ghost use Rattle.std.specs.Prelude.{◌≡◌, ◌∷◌, [], Some, false, IfOk};
ghost use Rattle.clap.specs.Words.{IsPlainArg, items_of, rule_of};
ghost use Rattle.modbus_command.specs.Arguments.{HasWords, flag_rule, option_rule, positional_rule};

use clap::{Arg, ArgAction, Command};
use std::alloc::{AllocError, Global};

/// A word that stands at its place and must be there.
pub fn positional<'a>(alloc: Global, name: &'a str, value: &'a str, help: &'a str) -> Arg<'a>
    ensures rule { rule_of result ≡ positional_rule name.entry.now }
    ensures shown { (result.help ≡ Some help.entry) × (items_of result.val_names ≡ value.entry ∷ []) }
    ensures plain { IsPlainArg result × (result.global ≡ false) }
{
    Arg::new(alloc, name)
        .value_name(value)
        .required(true)
        .help(help)
}

/// An option that takes a value.
pub fn option<'a>(alloc: Global, name: &'a str, value: &'a str, help: &'a str) -> Arg<'a>
    ensures rule { rule_of result ≡ option_rule name.entry.now }
    ensures shown { (result.help ≡ Some help.entry) × (items_of result.val_names ≡ value.entry ∷ []) }
    ensures plain { IsPlainArg result × (result.global ≡ false) }
{
    Arg::new(alloc, name)
        .long(name)
        .value_name(value)
        .help(help)
}

/// An option that is there or not.
pub fn flag<'a>(alloc: Global, name: &'a str, help: &'a str) -> Arg<'a>
    ensures rule { rule_of result ≡ flag_rule name.entry.now }
    ensures shown { result.help ≡ Some help.entry }
    ensures plain { IsPlainArg result × (result.global ≡ false) }
{
    Arg::new(alloc, name)
        .long(name)
        .action(ArgAction::SetTrue)
        .help(help)
}

/// A command with these words, in this order.
///
/// # Errors
/// `AllocError` where memory is refused.
// It takes them as one list: where each is added by a call that may fail, the check of the caller takes twice to three times as long.
pub fn command<'a>(
    alloc: Global,
    name: &'a str,
    about: &'a str,
    words: Vec<Arg<'a>>,
) -> Result<Command<'a>, AllocError>
    ensures words { IfOk result (HasWords name.entry about.entry words.entry.items) }
{
    Command::new(alloc, name).about(about).args(words)
}
