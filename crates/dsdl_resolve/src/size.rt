//! The pass before all others: how many files there are, and how large each is.
ghost use Rattle.std.specs.Prelude.{◌≡◌, ◌<◌, ◌^◌, length, OnOk, IfErr};
ghost use Rattle.std.specs.List.{All};
ghost use Rattle.dsdl_resolve.specs.Passes.{AreWithinLimits, IsTooBig};
ghost use Rattle.dsdl_resolve.specs.Refusals.{IsRefusal};

use crate::at::at;
use crate::{DsdlError, DsdlWhy};
use dsdl_files::{DsdlFile, MAX_FILE, MAX_FILES};
use std::alloc::Global;

/// Refuses the first file that is one too many or too large.
pub fn check_sizes(alloc: Global, files: &[DsdlFile]) -> Result<(), DsdlError>
    ensures within { OnOk result (AreWithinLimits files.now) }
    ensures short { OnOk result (All (λ file. length file.text < 2 ^ 32) files.now) }
    ensures refused { IfErr result (IsRefusal (IsTooBig files.now)) }
{
    for i in 0..files.len() {
        let file = &files[i];
        if i >= MAX_FILES || file.text.len() > MAX_FILE {
            return Err(at(alloc, file, 0, DsdlWhy::TooBig));
        }
    }
    Ok(())
}
