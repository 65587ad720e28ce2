//! The arguments of words, by how many there are: a command of one of these forms changes nothing
//! here.
ghost use Rattle.std.specs.Prelude.{◌≡◌, IfOk, Some, is_some, map, string_bytes, true, false};
ghost use Rattle.clap.specs.Words.{app_of};
ghost use Rattle.clap.specs.Walk.{rule_of};
ghost use Rattle.cyphal.specs.ClapShape.{given, one_shape, two_shape, three_shape};
ghost use Rattle.cyphal.specs.Words.{is_argument, are_arguments, are_three, one_given, two_given, three_given};

use clap::{Arg, ArgAction, Command};
use cy_bits::NoMemory;
use std::alloc::Global;

/// Whether a word can be an argument: it isn't empty and begins with no hyphen.
pub fn is_argument(word: &str) -> bool
    ensures { result ≡ is_argument word.now }
{
    match word.as_bytes() {
        [] => false,
        [first, ..] => *first != b'-',
    }
}

/// Whether a root and another argument are accepted.
pub fn are_arguments(root: &str, argument: &str) -> bool
    ensures { result ≡ are_arguments root.now argument.now }
{
    is_argument(root) && is_argument(argument)
}

/// Whether three arguments are accepted.
pub fn are_three(first: &str, second: &str, third: &str) -> bool
    ensures { result ≡ are_three first.now second.now third.now }
{
    is_argument(first) && is_argument(second) && is_argument(third)
}

/// A required argument with one value.
fn given<'a>(alloc: Global, id: &'a str) -> Arg<'a>
    ensures rule { rule_of result ≡ given id.entry.now }
    ensures local { result.global ≡ false }
{
    Arg::new(alloc, id).required(true).action(ArgAction::Set)
}

fn one_shape<'a>(alloc: Global) -> Result<Command<'a>, NoMemory>
    ensures { IfOk result (λ c. app_of c ≡ one_shape) }
{
    let command = Command::new(alloc, "cyphal").arg(given(alloc, "ARGUMENT"))?;
    Ok(command)
}

fn three_shape<'a>(alloc: Global) -> Result<Command<'a>, NoMemory>
    ensures { IfOk result (λ c. app_of c ≡ three_shape) }
{
    let command = Command::new(alloc, "cyphal")
        .arg(given(alloc, "FIRST"))?
        .arg(given(alloc, "SECOND"))?
        .arg(given(alloc, "THIRD"))?;
    Ok(command)
}

fn two_shape<'a>(alloc: Global) -> Result<Command<'a>, NoMemory>
    ensures { IfOk result (λ c. app_of c ≡ two_shape) }
{
    let command = Command::new(alloc, "cyphal")
        .arg(given(alloc, "ROOT"))?
        .arg(given(alloc, "ARGUMENT"))?;
    Ok(command)
}

/// The argument of accepted words that have one alone. It refuses nothing, and wants memory.
pub fn one_word<'a>(alloc: Global, words: &'a [String]) -> Result<&'a str, NoMemory>
    requires { is_some (one_given (map string_bytes words.now)) ≡ true }
    ensures { IfOk result (λ word. one_given (map string_bytes words.entry.now) ≡ Some word.now) }
{
    let command = one_shape(alloc)?;
    match command.try_get_matches_from(words) {
        Ok(matches) => Ok(matches.get_str("ARGUMENT").unwrap()),
        Err(_) => Err(NoMemory),
    }
}

/// The arguments of accepted words that have three. It refuses nothing, and wants memory.
pub fn three_words<'a>(
    alloc: Global,
    words: &'a [String],
) -> Result<(&'a str, &'a str, &'a str), NoMemory>
    requires { is_some (three_given (map string_bytes words.now)) ≡ true }
    ensures { let given = three_given (map string_bytes words.entry.now) in
        IfOk result (λ got. given ≡ Some (got.0.now, got.1.now, got.2.now)) }
{
    let command = three_shape(alloc)?;
    match command.try_get_matches_from(words) {
        Ok(matches) => {
            let first = matches.get_str("FIRST").unwrap();
            let second = matches.get_str("SECOND").unwrap();
            let third = matches.get_str("THIRD").unwrap();
            Ok((first, second, third))
        }
        Err(_) => Err(NoMemory),
    }
}

/// The arguments of accepted words that have a root and another. It refuses nothing, and wants
/// memory.
pub fn two_words<'a>(alloc: Global, words: &'a [String]) -> Result<(&'a str, &'a str), NoMemory>
    requires { is_some (two_given (map string_bytes words.now)) ≡ true }
    ensures { let given = two_given (map string_bytes words.entry.now) in
        IfOk result (λ got. given ≡ Some (got.0.now, got.1.now)) }
{
    let command = two_shape(alloc)?;
    match command.try_get_matches_from(words) {
        Ok(matches) => {
            let root = matches.get_str("ROOT").unwrap();
            let argument = matches.get_str("ARGUMENT").unwrap();
            Ok((root, argument))
        }
        Err(_) => Err(NoMemory),
    }
}
