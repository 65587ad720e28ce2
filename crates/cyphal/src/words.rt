//! Which words are a command, and what its arguments are.
ghost use Rattle.std.specs.Prelude.{◌≡◌, IfOk, OnErr, is_some, map, option_map, string_bytes, true};
ghost use Rattle.cyphal.specs.Words.{Gen, Order, Survey, Nodes, Monitor, Allocate, asked_by};
ghost use Rattle.cyphal.specs.Words.{names_of};
ghost use Rattle.cyphal.specs.Words.{named_of_one, named_of_node, named_of_two, named_of_plan};
ghost use Rattle.cyphal.specs.Words.{named_of_three, command_of};

use crate::arguments::{are_arguments, are_three, is_argument, one_word, three_words, two_words};
use crate::bus_names::BusNames;
use crate::node_id::NodeId;
use crate::number::{node_of, number_of, window_of};
use crate::remote_file::RemoteFile;
use cy_bits::NoMemory;
use node_run::Form;
use std::alloc::Global;

/// A command with its arguments.
#[derive(Clone, Copy)]
pub enum Accepted<'a> {
    /// Writes the layouts of the types below a root.
    Compile {
        root: &'a str,
    },
    /// Writes whether one type of a root is newer than another.
    Compat {
        root: &'a str,
        new: &'a str,
        old: &'a str,
    },
    /// Writes whether each version of a type of a root is newer than the one before it.
    Versions {
        root: &'a str,
    },
    /// Writes what became of the types of an old folder in a new one.
    Changes {
        old: &'a str,
        new: &'a str,
    },
    /// Writes values of a type of a root as bytes.
    Encode {
        root: &'a str,
        name: &'a str,
    },
    /// Writes bytes as values of a type of a root.
    Decode {
        root: &'a str,
        name: &'a str,
    },
    /// Runs the plan at a path, which is read in the namespace of a root, over a log, and writes
    /// its report in a form.
    Run {
        form: Form,
        root: &'a str,
        plan: &'a str,
    },
    /// Writes what became of each frame of a log by such a plan.
    Explain {
        root: &'a str,
        plan: &'a str,
    },
    /// Writes the memory bound of such a plan.
    Bound {
        root: &'a str,
        plan: &'a str,
    },
    /// Writes the text of such a plan in version 2.
    Migrate {
        root: &'a str,
        plan: &'a str,
    },
    /// Runs the log that is made of a number.
    Gen {
        number: u32,
    },
    /// Writes who is online in a log that the node `own` hears, and the network's time.
    Monitor {
        own: NodeId,
    },
    /// Gives node-IDs to the nodes of such a log that have none.
    Allocate {
        own: NodeId,
    },
    /// Fetches a file of another node over a log.
    Fetch {
        file: RemoteFile<'a>,
    },
    /// Writes the lines of a log in the order of their moments, of which none comes more
    /// microseconds late than `window`.
    Order {
        window: u32,
    },
    /// Writes what the buses with these names carry.
    Survey {
        buses: BusNames<'a>,
    },
    /// Writes who comes and goes on the buses with these names.
    Nodes {
        buses: BusNames<'a>,
    },
}

/// The command that the words are, so `compile ROOT`, `compat ROOT NEW OLD`, `versions ROOT`,
/// `changes OLD NEW`, `encode ROOT TYPE`, `decode ROOT TYPE`, `run ROOT PLAN`, `json ROOT PLAN`,
/// `bound ROOT PLAN`, `migrate ROOT PLAN`, `explain ROOT PLAN`, `gen NUMBER`, `order MICROS`,
/// `survey BUSES`, `nodes BUSES`, `monitor NODE`, `allocate NODE` or `fetch NODE SERVER PATH`; none
/// where they aren't accepted. It wants memory where they are.
pub fn command_of<'a>(alloc: Global, words: &'a [String]) -> Result<Option<Accepted<'a>>, NoMemory>
    ensures is { let asked = command_of (map string_bytes words.entry.now) in
        IfOk result (λ given. option_map asked_by given ≡ asked) }
    ensures memory { let asked = command_of (map string_bytes words.entry.now) in
        OnErr result (is_some asked ≡ true) }
{
    match words {
        [word, argument] => {
            if is_argument(argument.as_str()) {
                match of_one(word.as_str(), argument.as_str()) {
                    None => Ok(None),
                    Some(_) => {
                        let argument = one_word(alloc, words)?;
                        Ok(of_one(word.as_str(), argument))
                    }
                }
            } else {
                Ok(None)
            }
        }
        [word, root, argument] => {
            if are_arguments(root.as_str(), argument.as_str()) {
                match of_two(word.as_str(), root.as_str(), argument.as_str()) {
                    None => Ok(None),
                    Some(_) => {
                        let (root, argument) = two_words(alloc, words)?;
                        Ok(of_two(word.as_str(), root, argument))
                    }
                }
            } else {
                Ok(None)
            }
        }
        [word, first, second, third] => {
            if are_three(first.as_str(), second.as_str(), third.as_str()) {
                match of_three(
                    word.as_str(),
                    first.as_str(),
                    second.as_str(),
                    third.as_str(),
                ) {
                    None => Ok(None),
                    Some(_) => {
                        let (first, second, third) = three_words(alloc, words)?;
                        Ok(of_three(word.as_str(), first, second, third))
                    }
                }
            } else {
                Ok(None)
            }
        }
        _ => Ok(None),
    }
}

/// The command of one argument that a word names.
fn of_one<'a>(word: &str, argument: &'a str) -> Option<Accepted<'a>>
    ensures { option_map asked_by result ≡ named_of_one word.now argument.entry.now }
{
    if word == "compile" {
        Some(Accepted::Compile { root: argument })
    } else if word == "versions" {
        Some(Accepted::Versions { root: argument })
    } else if word == "gen" {
        of_number(number_of(argument.as_bytes()))
    } else if word == "order" {
        of_window(window_of(argument.as_bytes()))
    } else if word == "survey" {
        of_buses(BusNames::new(argument))
    } else if word == "nodes" {
        of_watched(BusNames::new(argument))
    } else {
        of_node(word, node_of(argument.as_bytes()))
    }
}

/// The run of the log of a number, if there is one.
fn of_number<'a>(number: Option<u32>) -> Option<Accepted<'a>>
    ensures { option_map asked_by result ≡ option_map Gen number }
{
    match number {
        Some(number) => Some(Accepted::Gen { number }),
        None => None,
    }
}

/// The order of a log with a window, if there is one.
fn of_window<'a>(window: Option<u32>) -> Option<Accepted<'a>>
    ensures { option_map asked_by result ≡ option_map Order window }
{
    match window {
        Some(window) => Some(Accepted::Order { window }),
        None => None,
    }
}

/// The survey of buses, if there are any.
fn of_buses<'a>(buses: Option<BusNames<'a>>) -> Option<Accepted<'a>>
    ensures { option_map asked_by result ≡ option_map Survey (option_map names_of buses.entry) }
{
    match buses {
        Some(buses) => Some(Accepted::Survey { buses }),
        None => None,
    }
}

/// The watch over the nodes on buses, if there are any.
fn of_watched<'a>(buses: Option<BusNames<'a>>) -> Option<Accepted<'a>>
    ensures { option_map asked_by result ≡ option_map Nodes (option_map names_of buses.entry) }
{
    match buses {
        Some(buses) => Some(Accepted::Nodes { buses }),
        None => None,
    }
}

/// The command of a node that a word names, if there is a node.
fn of_node<'a>(word: &str, node: Option<NodeId>) -> Option<Accepted<'a>>
    ensures { let own = option_map (λ n. n.number) node in
        option_map asked_by result ≡ named_of_node word.now own }
{
    if word == "monitor" {
        Some(Accepted::Monitor { own: node? })
    } else if word == "allocate" {
        Some(Accepted::Allocate { own: node? })
    } else {
        None
    }
}

/// The command of three arguments that a word names.
fn of_three<'a>(word: &str, first: &'a str, second: &'a str, third: &'a str) -> Option<Accepted<'a>>
    ensures { option_map asked_by result
        ≡ named_of_three word.now first.entry.now second.entry.now third.entry.now }
{
    if word == "compat" {
        Some(Accepted::Compat {
            root: first,
            new: second,
            old: third,
        })
    } else if word == "fetch" {
        let own = node_of(first.as_bytes());
        let server = node_of(second.as_bytes());
        Some(Accepted::Fetch {
            file: RemoteFile::new(own, server, third)?,
        })
    } else {
        None
    }
}

/// The command of two arguments that a word names.
fn of_two<'a>(word: &str, first: &'a str, second: &'a str) -> Option<Accepted<'a>>
    ensures { option_map asked_by result
        ≡ named_of_two word.now first.entry.now second.entry.now }
{
    if word == "encode" {
        Some(Accepted::Encode {
            root: first,
            name: second,
        })
    } else if word == "decode" {
        Some(Accepted::Decode {
            root: first,
            name: second,
        })
    } else if word == "changes" {
        Some(Accepted::Changes {
            old: first,
            new: second,
        })
    } else {
        of_plan(word, first, second)
    }
}

/// The command of a root and a plan that a word names.
fn of_plan<'a>(word: &str, root: &'a str, plan: &'a str) -> Option<Accepted<'a>>
    ensures { option_map asked_by result
        ≡ named_of_plan word.now root.entry.now plan.entry.now }
{
    if word == "run" {
        Some(Accepted::Run {
            form: Form::Text,
            root,
            plan,
        })
    } else if word == "json" {
        Some(Accepted::Run {
            form: Form::Json,
            root,
            plan,
        })
    } else if word == "bound" {
        Some(Accepted::Bound { root, plan })
    } else if word == "migrate" {
        Some(Accepted::Migrate { root, plan })
    } else if word == "explain" {
        Some(Accepted::Explain { root, plan })
    } else {
        None
    }
}
