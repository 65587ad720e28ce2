//! The types of two namespaces, each once.
ghost use Rattle.std.specs.Prelude.{◌≡◌, ◌≤◌, ◌++◌, [], IfOk, OnOk, drop, length, map};
ghost use Rattle.type_changes.specs.Entries.{Pairing, entry_of, among, paired, of_old, of_new, of_both};

use cy_bits::NoMemory;
use dsdl_names::TypeId;
use dsdl_types::Definition;
use std::alloc::Global;
use std::cmp::Ordering;

/// A type of an old or a new namespace.
#[derive(Clone, Copy)]
pub struct Entry<'a> {
    /// Its name and version.
    pub id: &'a TypeId,
    /// What the old namespace defines, where it has the type.
    pub old: Option<&'a Definition>,
    /// What the new one defines, where it has the type.
    pub new: Option<&'a Definition>,
}

/// The types of two namespaces, whose definitions are by name and version.
pub fn paired<'a>(
    alloc: Global,
    olds: &[&'a Definition],
    news: &[&'a Definition],
) -> Result<Vec<Entry<'a>>, NoMemory>
    ensures { IfOk result (λ entries. map entry_of entries.items
        ≡ paired (map (λ d. d.now) olds.now) (map (λ d. d.now) news.now)) }
{
    let mut entries = Vec::new(alloc);
    let mut at = 0;
    for old in olds {
        at = push_old(&mut entries, old, news, at)?;
    }
    push_news(&mut entries, &news[at..])?;
    Ok(entries)
}

/// Appends the new definitions from a place on that stand in front of an old one, and then this one, with the new one
/// of its type. Returns the place of the others.
fn push_old<'a>(
    entries: &mut Vec<Entry<'a>>,
    old: &'a Definition,
    news: &[&'a Definition],
    from: usize,
) -> Result<usize, NoMemory>
    requires { from ≤ length news.now }
    ensures within { IfOk result (λ next. next ≤ length news.now) }
    ensures pushed { IfOk result (λ next. (behind : Pairing)
        → map entry_of entries.new.items ++ behind (drop next (map (λ d. d.now) news.now))
        ≡ map entry_of entries.old.items
        ++ among old.entry.now behind (drop from (map (λ d. d.now) news.now))) }
{
    for at in from..news.len() {
        let new = news[at];
        match old.id.cmp(&new.id) {
            Ordering::Less => {
                entries.push(of_old(old))?;
                return Ok(at);
            }
            Ordering::Equal => {
                entries.push(of_both(old, new))?;
                return Ok(at + 1);
            }
            Ordering::Greater => entries.push(of_new(new))?,
        }
    }
    entries.push(of_old(old))?;
    Ok(news.len())
}

/// Appends types that the new namespace alone has.
fn push_news<'a>(entries: &mut Vec<Entry<'a>>, news: &[&'a Definition]) -> Result<(), NoMemory>
    ensures { OnOk result (map entry_of entries.new.items
        ≡ map entry_of entries.old.items ++ paired [] (map (λ d. d.now) news.now)) }
{
    for new in news {
        entries.push(of_new(new))?;
    }
    Ok(())
}

/// A type that the old namespace alone has.
fn of_old(old: &Definition) -> Entry<'_>
    ensures { entry_of result ≡ of_old old.entry.now }
{
    Entry {
        id: &old.id,
        old: Some(old),
        new: None,
    }
}

/// A type that the new namespace alone has.
fn of_new(new: &Definition) -> Entry<'_>
    ensures { entry_of result ≡ of_new new.entry.now }
{
    Entry {
        id: &new.id,
        old: None,
        new: Some(new),
    }
}

/// A type that both have.
fn of_both<'a>(old: &'a Definition, new: &'a Definition) -> Entry<'a>
    ensures { entry_of result ≡ of_both old.entry.now new.entry.now }
{
    Entry {
        id: &old.id,
        old: Some(old),
        new: Some(new),
    }
}
