//! The files that refer to a file.
ghost use Rattle.std.specs.Prelude.{◌≡◌, ◌<◌, ℕ, List as ListOf, [], true, length, replicate, IfOk, OnOk};
ghost use Rattle.dsdl_links.specs.Order.{is_among};
ghost use Rattle.dsdl_links.specs.Users.{AddsUser, AreUsers};

use crate::links::Links;
use cy_bits::{List, NoMemory};
use std::alloc::Global;

/// For each file the numbers of those that refer to it.
pub fn users_of(alloc: Global, links: &Links) -> Result<Vec<List<usize>>, NoMemory>
    ensures { IfOk result (λ users. AreUsers links.now users.items) }
{
    let mut users = none_of(alloc, links.len())?;
    for file in 0..links.len() {
        add_user(links.of(file), file, &mut users)?;
    }
    Ok(users)
}

/// So many lists without items.
fn none_of(alloc: Global, count: usize) -> Result<Vec<List<usize>>, NoMemory>
    ensures { IfOk result (λ lists. lists.items ≡ replicate count []) }
{
    let mut lists = Vec::new(alloc);
    for _ in 0..count {
        lists.push(List::empty(alloc))?;
    }
    Ok(lists)
}

/// Notes a file as a user of files.
fn add_user(files: &[usize], user: usize, users: &mut Vec<List<usize>>) -> Result<(), NoMemory>
    requires { (j : ℕ) → is_among files.now j ≡ true → j < length users.old.items }
    ensures { OnOk result (AddsUser files.now user users.old.items users.new.items) }
{
    for file in files {
        users[*file].push(user)?;
    }
    Ok(())
}
