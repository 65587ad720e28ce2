//! The passes on clashes of versions and of ports.
ghost use Rattle.std.specs.Prelude.{◌≡◌, ◌≤◌, None, Some, length, MatchOption, IfOk, OnOk, IfErr};
ghost use Rattle.dsdl_clash.specs.Clashes.{first_clash, versions_clash, ports_clash};
ghost use Rattle.dsdl_resolve.specs.Passes.{ClashesAt};
ghost use Rattle.dsdl_resolve.specs.Refusals.{IsRefusal};
ghost use Rattle.dsdl_resolve.specs.declared.why.DsdlWhy.TheVariants as cause;

use crate::at::at_number;
use crate::{DsdlError, DsdlWhy};
use dsdl_clash::{first_port_clash, first_version_clash};
use dsdl_files::DsdlFile;
use dsdl_types::Definition;
use std::alloc::Global;

/// Refuses the first file whose version clashes with that of one before it. The types are those of
/// the files.
pub fn check_versions(
    alloc: Global,
    files: &[DsdlFile],
    definitions: &[Definition],
) -> Result<(), DsdlError>
    requires { length definitions.now ≤ length files.now }
    ensures none { OnOk result (first_clash versions_clash definitions.now ≡ None) }
    ensures refused { IfErr result (IsRefusal
        (ClashesAt versions_clash cause.VersionClash files.now definitions.now)) }
{
    match first_version_clash(alloc, definitions)? {
        None => Ok(()),
        Some(file) => Err(at_number(alloc, files, file, 0, DsdlWhy::VersionClash)),
    }
}

/// Refuses the first file whose port clashes with that of one before it. The types are those of the
/// files.
pub fn check_ports(
    alloc: Global,
    files: &[DsdlFile],
    definitions: &[Definition],
) -> Result<(), DsdlError>
    requires { length definitions.now ≤ length files.now }
    ensures none { OnOk result (first_clash ports_clash definitions.now ≡ None) }
    ensures refused { IfErr result (IsRefusal
        (ClashesAt ports_clash cause.PortClash files.now definitions.now)) }
{
    match first_port_clash(alloc, definitions)? {
        None => Ok(()),
        Some(file) => Err(at_number(alloc, files, file, 0, DsdlWhy::PortClash)),
    }
}
