//! The files that files refer to.
ghost use Rattle.std.specs.Prelude.{◌≡◌, ◌<◌, ℕ, true, length, IfOk, IfErr};
ghost use Rattle.dsdl_links.specs.Answers.{IsLinkError};
ghost use Rattle.dsdl_links.specs.Links.{AreLinks, first_numbers};
ghost use Rattle.dsdl_links.specs.Places.{ArePlaces, LinksAt, IsMissingAt};
ghost use Rattle.dsdl_links.specs.Order.{is_among, links_at, AreWithin};

use crate::error::LinkError;
use crate::source::Source;
use cy_bits::{List, NoMemory, TryCopy};
use dsdl_names::{TypeId, order_of_types};
use std::alloc::Global;
use std::collections::BTreeMap;
use std::marker::Model;

/// For each file in path order the numbers of the files that it refers to, in the order of its text.
/// Files are numbered in path order, from 0.
#[derive(Drop)]
pub struct Links {
    files: List<List<usize>>,
}

impl Model for Links {
    ghost use Rattle.std.specs.Prelude.{List as ListOf, ℕ};
    ghost use Rattle.dsdl_links.specs.Order.{AreWithin};

    ghost Value = { ListOf (ListOf ℕ) };

    ghost view = { λ l. l.files };

    ghost invariant = { λ l. AreWithin l.files };
}

impl Links {
    /// The number of files.
    pub fn len(&self) -> usize
        ensures value { result ≡ length self.now }
        ensures within { AreWithin self.now }
    {
        self.files.len()
    }

    /// The files that the file of this number, below `len`, refers to.
    pub fn of(&self, file: usize) -> &[usize]
        requires { file < length self.now }
        ensures value { result.now ≡ links_at self.now file }
        ensures within { (j : ℕ) → is_among result.now j ≡ true → j < length self.now }
    {
        self.files.as_slice()[file].as_slice()
    }
}

/// The links of files (Cyphal Specification, section 3.4.5), which are in path order. A reference
/// means the first file that defines its type.
///
/// `Unresolved` is the first file with a reference to no file, and on it the first such reference
/// in the order of the text. Takes time about linear in the references.
pub fn links_of(alloc: Global, files: &[Source]) -> Result<Links, LinkError>
    ensures linked { IfOk result (AreLinks files.now) }
    ensures unresolved { IfErr result (IsLinkError files.now) }
{
    let places = places_of(alloc, files)?;
    let mut links = List::empty(alloc);
    for i in 0..files.len() {
        links.push(links_in(alloc, files, &places, i)?)?;
    }
    Ok(Links { files: links })
}

/// For each file the number of the first one in path order that defines the same type, counted from 0: the
/// one that references to this type mean. The files are in path order.
pub fn first_numbers(alloc: Global, files: &[Source]) -> Result<List<usize>, NoMemory>
    ensures { IfOk result (λ firsts. firsts ≡ first_numbers files.now) }
{
    order_of_types();
    let places = places_of(alloc, files)?;
    let mut firsts = List::empty(alloc);
    for file in files {
        firsts.push(places.get(&file.id).copied().unwrap_or(0))?;
    }
    Ok(firsts)
}

/// The number of the first file of each type.
fn places_of(alloc: Global, files: &[Source]) -> Result<BTreeMap<TypeId, usize>, NoMemory>
    ensures { IfOk result (ArePlaces files.now) }
{
    order_of_types();
    let mut places = BTreeMap::new(alloc);
    let mut i = files.len();
    while i > 0 {
        i -= 1;
        places.insert(files[i].id.copy(alloc)?, i)?;
    }
    Ok(places)
}

/// The files that a file refers to.
fn links_in(
    alloc: Global,
    files: &[Source],
    places: &BTreeMap<TypeId, usize>,
    file: usize,
) -> Result<List<usize>, LinkError>
    requires file { file < length files.now }
    requires places { ArePlaces files.now places.now }
    ensures linked { IfOk result (λ links. LinksAt files.now file links) }
    ensures missing { IfErr result (IsMissingAt files.now file) }
{
    order_of_types();
    let mut links = List::empty(alloc);
    for mention in files[file].mentions.as_slice() {
        match places.get(&mention.id) {
            Some(place) => links.push(*place)?,
            None => {
                return Err(LinkError::Unresolved {
                    file,
                    line: mention.line,
                    id: mention.id.copy(alloc)?,
                });
            }
        }
    }
    Ok(links)
}
