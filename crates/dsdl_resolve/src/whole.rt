//! What the statements of a section say together, before the first is taken.
ghost use Rattle.std.specs.Prelude.{◌≡◌, ◌<◌, ◌^◌, ◌+◌, ◌||◌, ◌&&◌, not, if◌then◌else◌, length};
ghost use Rattle.std.specs.List.{count_by, before_first};
ghost use Rattle.dsdl_resolve.specs.Place.{is_union_section};
ghost use Rattle.dsdl_resolve.specs.Says.{is_entry, is_field, is_split, is_union};

use crate::standing::{is_directive, is_entry, is_field, is_split};
use dsdl_parse::Statement;

/// What all statements of a section say together.
#[derive(Clone, Copy, Debug, Drop)]
pub struct Whole {
    /// Whether `@union` stands before each field, padding and constant.
    pub union: bool,
    /// The number of fields with a name.
    pub fields: u64,
}

impl Whole {
    /// With one statement more, where `begun` says whether a field, a padding or a constant stands
    /// before it or it is one.
    fn with(self, begun: bool, line: &Statement) -> Whole
        requires { self.fields < 2 ^ 62 }
        ensures union { result.union ≡ (self.union || (not begun && is_union line.now)) }
        ensures fields { result.fields ≡ self.fields + (if is_field line.now then 1 else 0) }
    {
        let union = is_directive(line, "union");
        Whole {
            union: self.union || (!begun && union),
            fields: self.fields + u64::from(is_field(line)),
        }
    }
}

/// Whether a field, a padding or a constant stands before a line, or the line is one.
fn is_begun(begun: bool, line: &Statement) -> bool
    ensures { result ≡ (begun || is_entry line.now) }
{
    begun || is_entry(line)
}

/// What the section says that these statements begin with.
pub fn whole_of(lines: &[Statement]) -> Whole
    requires { length lines.now < 2 ^ 32 }
    ensures union { result.union ≡ is_union_section (before_first is_split lines.now) }
    ensures fields { result.fields ≡ count_by is_field (before_first is_split lines.now) }
{
    let mut begun = false;
    let mut whole = Whole {
        union: false,
        fields: 0,
    };
    for line in lines {
        if is_split(line) {
            return whole;
        }
        begun = is_begun(begun, line);
        whole = whole.with(begun, line);
    }
    whole
}
