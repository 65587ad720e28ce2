//! Finding the files that can be valued.
ghost use Rattle.std.specs.Prelude.{◌≡◌, ◌<◌, ◌≤◌, ◌∷◌, [], ℕ, true, false, length, take, slice_index, IfOk, OnOk};
ghost use Rattle.dsdl_links.specs.Order.{is_among};
ghost use Rattle.dsdl_links.specs.Marks.{is_marked, are_marked, KnowsFronts};
ghost use Rattle.dsdl_links.specs.Ready.{AddsOpen, AreOpen};

use crate::links::Links;
use cy_bits::NoMemory;
use std::alloc::Global;
use std::collections::BTreeSet;

/// The files that can be valued before any other is: those that refer to none.
pub fn ready_at_first(
    alloc: Global,
    links: &Links,
    valued: &[bool],
    known: &mut [usize],
) -> Result<BTreeSet<usize>, NoMemory>
    requires marks { length valued.now ≡ length links.now }
    requires counts { length known.old ≡ length links.now }
    requires known { KnowsFronts links.now valued.now known.old }
    requires none { (k : ℕ) → is_marked valued.now k ≡ false }
    ensures ready { IfOk result (AreOpen (length links.now) links.now valued.now) }
    ensures known { OnOk result (KnowsFronts links.now valued.now known.new) }
{
    let mut ready = BTreeSet::new(alloc);
    for file in 0..links.len() {
        add_open(links, valued, file, known, &mut ready)?;
    }
    Ok(ready)
}

/// Adds those of some files, none of them valued, that refer only to valued files. So many links at
/// the front of each file are known to be valued, so that no link is looked at twice.
pub fn add_all_open(
    links: &Links,
    valued: &[bool],
    files: &[usize],
    known: &mut [usize],
    ready: &mut BTreeSet<usize>,
) -> Result<(), NoMemory>
    requires marks { length valued.now ≡ length links.now }
    requires counts { length known.old ≡ length links.now }
    requires known { KnowsFronts links.now valued.now known.old }
    requires within { (k : ℕ) → is_among files.now k ≡ true → k < length links.now }
    requires unmarked { (k : ℕ) → is_among files.now k ≡ true → is_marked valued.now k ≡ false }
    ensures added { OnOk result (AddsOpen links.now valued.now files.now ready.old ready.new) }
    ensures known { OnOk result (KnowsFronts links.now valued.now known.new) }
{
    for file in files {
        add_open(links, valued, *file, known, ready)?;
    }
    Ok(())
}

/// Adds a file that isn't valued where it refers only to valued files.
fn add_open(
    links: &Links,
    valued: &[bool],
    file: usize,
    known: &mut [usize],
    ready: &mut BTreeSet<usize>,
) -> Result<(), NoMemory>
    requires marks { length valued.now ≡ length links.now }
    requires counts { length known.old ≡ length links.now }
    requires known { KnowsFronts links.now valued.now known.old }
    requires within { file < length links.now }
    requires unmarked { is_marked valued.now file ≡ false }
    ensures added { OnOk result (AddsOpen links.now valued.now (file ∷ []) ready.old ready.new) }
    ensures known { OnOk result (KnowsFronts links.now valued.now known.new) }
{
    let followed = links.of(file);
    let front = valued_front(followed, valued, known[file]);
    known[file] = front;
    if front == followed.len() {
        ready.insert(file)?;
    }
    Ok(())
}

/// How many links from the front are valued, of which so many are known to be.
fn valued_front(links: &[usize], valued: &[bool], known: usize) -> usize
    requires within { (j : ℕ) → is_among links.now j ≡ true → j < length valued.now }
    requires few { known ≤ length links.now }
    requires known { are_marked valued.now (take known links.now) ≡ true }
    ensures few { result ≤ length links.now }
    ensures front { are_marked valued.now (take result links.now) ≡ true }
    ensures next { result < length links.now →
        is_marked valued.now (slice_index links.now result) ≡ false }
{
    let mut front = known;
    while front < links.len() {
        if !valued[links[front]] {
            return front;
        }
        front += 1;
    }
    front
}
