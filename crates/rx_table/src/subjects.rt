ghost use Rattle.std.specs.Prelude.{◌≡◌, ℕ, List, IfOk, replicate, slice_get};
ghost use Rattle.can_id.specs.declared.key.Kind.TheVariants.{Message};
ghost use Rattle.rx_table.specs.Keys.{same_kind};
ghost use Rattle.rx_table.specs.SubjectPlaces.{place_code, with_code};

use can_id::Kind;
use cy_bits::NoMemory;
use std::alloc::Global;
use std::marker::Model;

/// By the subject, one more than its place among a table's subscriptions, or 0 where it has none.
#[derive(Drop)]
pub struct Subjects {
    codes: Vec<u32>,
}

impl Model for Subjects {
    ghost Value = { List ℕ };

    ghost view = { λ s. s.codes.items };
}

impl Subjects {
    /// For so many subjects, none of which has a place.
    pub(crate) fn new(alloc: Global, count: usize) -> Result<Subjects, NoMemory>
        ensures { IfOk result (λ s. s ≡ replicate count 0) }
    {
        let codes = vec![in alloc; 0u32; count]?;
        Ok(Subjects { codes })
    }

    /// What stands at a subject.
    #[inline(always)]
    pub(crate) fn get(&self, subject: u16) -> Option<u32>
        ensures { result ≡ slice_get self.now subject }
    {
        self.codes.get(subject as usize).copied()
    }

    /// Writes what stands at the subject of a subscription, if it is for one of these.
    pub(crate) fn put(&mut self, kind: Kind, port: u16, code: u32)
        ensures { self.new ≡ with_code self.old kind port code }
    {
        let subject = port as usize;
        if is_message(kind) && subject < self.codes.len() {
            self.codes[subject] = code;
        }
    }
}

/// The place that stands for a number: one less, and none for 0.
#[inline(always)]
pub(crate) fn place_at(code: u32) -> Option<usize>
    ensures { place_code result ≡ code }
{
    if code == 0 {
        None
    } else {
        Some(code as usize - 1)
    }
}

fn is_message(kind: Kind) -> bool
    ensures { result ≡ same_kind Message kind }
{
    match kind {
        Kind::Message => true,
        _ => false,
    }
}
