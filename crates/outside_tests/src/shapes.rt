//! What the shapes of compiled and of standard types keep of a payload.
ghost use Rattle.dsdl_types.specs.Laws.{KeepsReadings};
ghost use Rattle.dsdl_types.specs.Views.{sch};

use crate::samples::outer_layout;
use dsdl_types::Shape;
use dsdl_types::laws::shape_laws;
use layout::{Layout, LayoutError};
use std_types::{StdName, StdType, std_type};

/// The bytes that a compiled type keeps of a payload.
fn kept_of_layout(layout: &Layout) -> usize
    ensures { KeepsReadings (sch layout.now.schema) }
{
    shape_laws(layout);
    layout.extent_bytes()
}

/// The bytes that a standard type keeps of a payload.
fn kept_of_standard(standard: &StdType) -> usize
    ensures { KeepsReadings (sch standard.now.schema) }
{
    shape_laws(standard);
    standard.extent_bytes()
}

#[test]
fn kept(rt: HostRuntime) -> Result<(), LayoutError> {
    let outer = outer_layout(rt.alloc())?;
    assert!(rt; kept_of_layout(&outer) == 16, "outer");
    let standard = std_type(rt.alloc(), StdName::Heartbeat)?;
    assert!(rt; kept_of_standard(&standard) == 12, "heartbeat");
    Ok(())
}
