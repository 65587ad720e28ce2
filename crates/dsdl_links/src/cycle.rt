//! Files that reach themselves.
ghost use Rattle.std.specs.Prelude.{◌≡◌, ◌<◌, ℕ, true, length, IfOk, OnOk, MatchOption, MatchBool};
ghost use Rattle.dsdl_links.specs.Order.{is_among, Reaches, IsCycle};
ghost use Rattle.dsdl_links.specs.Marks.{Marks};

use crate::links::Links;
use cy_bits::NoMemory;
use std::alloc::Global;

/// The first file in path order that reaches itself, where one does.
pub fn first_cycle(alloc: Global, links: &Links) -> Result<Option<usize>, NoMemory>
    ensures { IfOk result (λ found.
        MatchOption found ((i : ℕ) → Reaches links.now i i → ⊥) (IsCycle links.now)) }
{
    for file in 0..links.len() {
        if reaches_itself(alloc, links, file)? {
            return Ok(Some(file));
        }
    }
    Ok(None)
}

/// Whether a file reaches itself through references.
fn reaches_itself(alloc: Global, links: &Links, file: usize) -> Result<bool, NoMemory>
    requires { file < length links.now }
    ensures { IfOk result (λ reaches.
        MatchBool reaches (Reaches links.now file file) (Reaches links.now file file → ⊥)) }
{
    let mut reached = vec![in alloc; false; links.len()]?;
    let mut waiting = Vec::new(alloc);
    waiting.push(file)?;
    while let Some(next) = waiting.pop() {
        mark(links.of(next), reached.as_mut_slice(), &mut waiting)?;
    }
    Ok(reached[file])
}

/// Marks files, and puts those on a stack that weren't marked yet.
fn mark(files: &[usize], marks: &mut [bool], waiting: &mut Vec<usize>) -> Result<(), NoMemory>
    requires { (j : ℕ) → is_among files.now j ≡ true → j < length marks.old }
    ensures { OnOk result (Marks files.now marks.old marks.new waiting.old.items
        waiting.new.items) }
{
    for file in files {
        if !marks[*file] {
            marks[*file] = true;
            waiting.push(*file)?;
        }
    }
    Ok(())
}
