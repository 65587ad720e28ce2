ghost use Rattle.std.specs.Prelude.{◌≡◌, ◌≤◌, true, Some, length, MatchOption, IfSome, IfOk, IfErr};
ghost use Rattle.cy_outside.specs.Calls.{one_more, is_failing};
ghost use Rattle.cy_outside.specs.Causes.{CountsFault, FailsWhere, HasTreeCause, IsWithin, IsLeft};
ghost use Rattle.cy_outside.specs.Files.{has_clash, Lists, Reads, Sizes};
ghost use Rattle.cy_outside.specs.Memory.{files_of};

use crate::{Calls, File, Got, Listing, NeverTree, Size, Tree, TreeError};
use cy_bits::List;
use std::alloc::Global;

/// Files in memory, of which the calls with some numbers fail. No file's path is a folder.
#[derive(Drop)]
pub struct MemTree<'a> {
    /// The files.
    pub tree: NeverTree,
    /// The calls, of `list`, `read_at` and `size` alike.
    pub calls: Calls<'a>,
}

impl<'a> MemTree<'a> {
    /// A tree of these files, or `None` where some file's path is a folder. The calls with these
    /// numbers, counted from 0, are to fail.
    pub fn new(files: List<File>, failing: &'a [u64]) -> Option<MemTree<'a>>
        ensures files { MatchOption result (has_clash (files_of files) ≡ true)
            (λ mem. mem.tree.files ≡ files) }
        ensures failing { IfSome result (λ mem. mem.calls.failing.now ≡ failing.now) }
        ensures next { IfSome result (λ mem. mem.calls.next ≡ 0) }
        ensures faults { IfSome result (λ mem. mem.calls.faults ≡ 0) }
    {
        let tree = NeverTree::new(files)?;
        let calls = Calls::new(failing);
        Some(MemTree { tree, calls })
    }

    /// Lists a folder, and fails exactly where the call's number is one of those that are to fail.
    /// `Tree::list` is this call.
    pub fn counted_list(&mut self, alloc: Global, path: &str) -> Result<Listing, TreeError>
        ensures fails { FailsWhere
            (is_failing self.old.calls.failing.now self.old.calls.next) result }
        ensures faults { CountsFault self.old.calls.faults self.new.calls.faults result }
        ensures next { self.new.calls.next ≡ one_more self.old.calls.next }
        ensures failing { self.new.calls.failing.now ≡ self.old.calls.failing.now }
        ensures files { Some (files_of self.new.tree.files)
            ≡ Some (files_of self.old.tree.files) }
        ensures lists { IfOk result (λ listing.
            Lists (Some (files_of self.old.tree.files)) path.now listing) }
        ensures cause { HasTreeCause self.old.calls.faults self.new.calls.faults result }
        ensures count { self.old.calls.faults ≤ self.new.calls.faults }
    {
        if self.calls.fails() {
            return Err(TreeError::Failed);
        }
        self.tree.list(alloc, path)
    }

    /// Reads a file, and fails exactly where the call's number is one of those that are to fail.
    /// `Tree::read_at` is this call.
    pub fn counted_read_at(
        &mut self,
        path: &str,
        offset: u64,
        buf: &mut [u8],
    ) -> Result<Got, TreeError>
        ensures fails { FailsWhere
            (is_failing self.old.calls.failing.now self.old.calls.next) result }
        ensures faults { CountsFault self.old.calls.faults self.new.calls.faults result }
        ensures next { self.new.calls.next ≡ one_more self.old.calls.next }
        ensures failing { self.new.calls.failing.now ≡ self.old.calls.failing.now }
        ensures files { Some (files_of self.new.tree.files)
            ≡ Some (files_of self.old.tree.files) }
        ensures within { IfOk result (λ got. IsWithin got (length buf.old)) }
        ensures reads { IfOk result (λ got.
            Reads (Some (files_of self.old.tree.files)) path.now offset buf.new got) }
        ensures behind { IfOk result (λ got. IsLeft got buf.old buf.new) }
        ensures memory { IfErr result (λ error. error ≡ TreeError.Failed) }
        ensures cause { HasTreeCause self.old.calls.faults self.new.calls.faults result }
        ensures count { self.old.calls.faults ≤ self.new.calls.faults }
    {
        if self.calls.fails() {
            return Err(TreeError::Failed);
        }
        self.tree.read_at(path, offset, buf)
    }

    /// Finds a size, and fails exactly where the call's number is one of those that are to fail.
    /// `Tree::size` is this call.
    pub fn counted_size(&mut self, path: &str) -> Result<Size, TreeError>
        ensures fails { FailsWhere
            (is_failing self.old.calls.failing.now self.old.calls.next) result }
        ensures faults { CountsFault self.old.calls.faults self.new.calls.faults result }
        ensures next { self.new.calls.next ≡ one_more self.old.calls.next }
        ensures failing { self.new.calls.failing.now ≡ self.old.calls.failing.now }
        ensures files { Some (files_of self.new.tree.files)
            ≡ Some (files_of self.old.tree.files) }
        ensures sizes { IfOk result (λ size.
            Sizes (Some (files_of self.old.tree.files)) path.now size) }
        ensures memory { IfErr result (λ error. error ≡ TreeError.Failed) }
        ensures cause { HasTreeCause self.old.calls.faults self.new.calls.faults result }
        ensures count { self.old.calls.faults ≤ self.new.calls.faults }
    {
        if self.calls.fails() {
            return Err(TreeError::Failed);
        }
        self.tree.size(path)
    }
}

impl<'a> Tree for MemTree<'a> {
    ghost files = { λ t. Some (files_of t.tree.files) };

    ghost faults = { λ t. t.calls.faults };

    ghost calls = { λ t. t.calls.next };

    fn list(&mut self, alloc: Global, path: &str) -> Result<Listing, TreeError> {
        self.counted_list(alloc, path)
    }

    fn read_at(&mut self, path: &str, offset: u64, buf: &mut [u8]) -> Result<Got, TreeError> {
        self.counted_read_at(path, offset, buf)
    }

    fn size(&mut self, path: &str) -> Result<Size, TreeError> {
        self.counted_size(path)
    }
}
