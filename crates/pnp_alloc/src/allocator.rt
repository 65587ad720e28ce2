ghost use Rattle.std.specs.Prelude.{◌≡◌, ◌≤◌, ◌+◌, ◌∷◌, ◌++◌, [], length, ℕ, List, Some, slice_set, true};
ghost use Rattle.pnp_alloc.specs.Used.{is_open, IsUsedAbove};

use crate::event::{AllocEvent, AllocOut, Owner};
use cy_bits::ShortList;

/// Gives node-IDs from 125 down to nodes without one (Cyphal Specification, section 5.3.12).
///
/// It stands for a list of events: those that `hear` was called with.
#[derive(Drop)]
pub struct Allocator {
    /// By number, whether it can't be given: the allocator's own, seen or given.
    used: [bool; 128],
    /// All numbers from above it to 125 are used.
    top: u8,
    /// Who was given which number, in the order of giving.
    owners: ShortList<Owner, 125>,
    ghost full: { length used ≡ 128 },
    ghost room: { top + length owners ≤ 125 },
    ghost above: { IsUsedAbove top used },
}

impl Allocator {
    ghost use Rattle.pnp_alloc.specs.declared.event.AllocEvent.{AllocEvent as Event};
    ghost use Rattle.pnp_alloc.specs.declared.event.AllocEvent.TheVariants as event;
    ghost use Rattle.pnp_alloc.specs.Allocation.{owners, answer, node_of, greatest};
    ghost use Rattle.pnp_alloc.specs.Stands.{Stands, IsFit};

    /// An allocator with this node-ID of its own, at most 127, that heard nothing yet.
    pub fn new(own: u8) -> Allocator
        requires { own ≤ 127 }
        ensures { Stands own [] result }
    {
        let mut used = [false; 128];
        used[own as usize] = true;
        Allocator {
            used,
            top: 125,
            owners: ShortList::new(),
        }
    }

    /// Hears an event. A unique id that has a node-ID is given it again, any other the greatest
    /// free one from 125 down to 1. A node that is seen has a node-ID of at most 127.
    pub fn hear(&mut self, ev: AllocEvent) -> AllocOut
        requires { IsFit ev }
        ensures stands { (own : ℕ) (past : List Event)
            → Stands own past self.old → Stands own (ev ∷ past) self.new }
        ensures answer { (own : ℕ) (past : List Event)
            → Stands own past self.old → result ≡ answer own ev past }
    {
        match ev {
            AllocEvent::Seen { node } => {
                self.used[node as usize] = true;
                AllocOut::Noted
            }
            AllocEvent::Wanted { uid } => self.want(uid),
        }
    }

    /// Who was given which node-ID, in the order of giving.
    pub fn owners(&self) -> &[Owner]
        ensures now { result.now ≡ self.now.owners }
        ensures owners { (own : ℕ) (past : List Event)
            → Stands own past self.now → result.now ≡ owners own past }
    {
        self.owners.as_slice()
    }

    /// A node with this unique id wants a node-ID.
    fn want(&mut self, uid: u64) -> AllocOut
        ensures stands { (own : ℕ) (past : List Event)
            → Stands own past self.old → Stands own (event.Wanted uid ∷ past) self.new }
        ensures answer { (own : ℕ) (past : List Event)
            → Stands own past self.old → result ≡ answer own (event.Wanted uid) past }
    {
        if let Some(node) = self.node_of(uid) {
            return AllocOut::Given { node };
        }
        match self.greatest_free() {
            Some(node) => {
                self.give(uid, node);
                AllocOut::Given { node }
            }
            None => AllocOut::Full,
        }
    }

    /// The node-ID of a unique id.
    fn node_of(&self, uid: u64) -> Option<u8>
        ensures { result ≡ node_of uid self.now.owners }
    {
        for owner in self.owners.as_slice() {
            if owner.uid == uid {
                return Some(owner.node);
            }
        }
        None
    }

    /// The greatest number from 1 to 125 that isn't used.
    fn greatest_free(&self) -> Option<u8>
        ensures { result ≡ greatest (is_open self.now.used) 125 }
    {
        let mut number = self.top;
        while number > 0 {
            if !self.used[number as usize] {
                return Some(number);
            }
            number -= 1;
        }
        None
    }

    /// Gives a unique id the greatest number that isn't used.
    fn give(&mut self, uid: u64, node: u8)
        requires { greatest (is_open self.old.used) 125 ≡ Some node }
        ensures used { self.new.used ≡ slice_set self.old.used node true }
        ensures owners { self.new.owners
            ≡ self.old.owners ++ (record { uid = uid; node = node }) ∷ [] }
    {
        self.used[node as usize] = true;
        self.top = node - 1;
        self.owners.push(Owner { uid, node });
    }
}
