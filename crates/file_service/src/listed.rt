//! The names that a folder lists.
ghost use Rattle.std.specs.Prelude.{◌≡◌, map, string_bytes, IfOk};
ghost use Rattle.file_service.specs.Names.{found, is_listed, listed, name_at};

use crate::place::is_printable;
use cy_bits::{List, NoMemory, Text};
use cy_outside::{Entry, Listing};
use std::alloc::Global;
use std::collections::BTreeSet;

/// Whether a name is listed: at most 255 bytes 20 to 7E hex.
fn is_listed(name: &str) -> bool
    ensures { result ≡ is_listed name.now }
{
    name.len() <= 255 && is_printable(name.as_bytes())
}

/// The names of these entries that are listed, each once and in byte order.
fn names_of(alloc: Global, entries: List<Entry>) -> Result<BTreeSet<String>, NoMemory>
    ensures { IfOk result (λ names. map (λ t. string_bytes t) names.keys
        ≡ listed (map (λ e. e.name) entries)) }
{
    let mut names = BTreeSet::new(alloc);
    for entry in entries.into_vec() {
        if is_listed(entry.name.as_str()) {
            names.insert(entry.name.into_string())?;
        }
    }
    Ok(names)
}

/// Of the names of these entries that are listed, in byte order, the one with this number; the
/// empty one past the last.
fn name_at(alloc: Global, entries: List<Entry>, index: u32) -> Result<Text, NoMemory>
    ensures { IfOk result (λ name. name ≡ name_at (listed (map (λ e. e.name) entries)) index) }
{
    let names = names_of(alloc, entries)?;
    Ok(match names.into_iter().nth(index as usize) {
        Some(name) => Text::new(name),
        None => Text::new(String::new(alloc)),
    })
}

/// The same of a listing; the empty name where there is no folder.
#[tactic(auto, using(crate::proofs::Sorted::no_name))]
pub fn name_in(alloc: Global, listing: Listing, index: u32) -> Result<Text, NoMemory>
    ensures { IfOk result (λ name. name ≡ name_at (listed (found listing)) index) }
{
    match listing {
        Listing::Entries(entries) => name_at(alloc, entries, index),
        Listing::Absent | Listing::NotFolder => Ok(Text::new(String::new(alloc))),
    }
}
