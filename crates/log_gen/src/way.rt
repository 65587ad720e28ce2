ghost use Rattle.std.specs.Prelude.{◌≡◌, ◌≤◌, ◌<◌};
ghost use Rattle.log_gen.specs.Rows.{copies};
ghost use Rattle.log_gen.specs.Rules.{is_silent, way_by, way_of};

/// How a transfer stands on a bus of the log.
#[derive(Clone, Copy, Debug, PartialEq, Eq)]
pub enum Way {
    /// All its frames are missing.
    Missing,
    /// Its first frame is missing.
    Headless,
    /// Its first frame stands twice in a row.
    Twice,
    /// Each frame stands once.
    Whole,
}

impl Way {
    /// How often a frame of the transfer stands in the log, by its number, counted from 0.
    pub fn copies(self, frame: u64) -> u64
        ensures value { result ≡ copies self frame }
        ensures few { result ≤ 2 }
    {
        match self {
            Way::Missing => 0,
            Way::Headless => u64::from(frame > 0),
            Way::Twice => 1 + u64::from(frame == 0),
            Way::Whole => 1,
        }
    }
}

/// How the transfer number `place` of a source, counted from 0, stands on a bus.
pub fn way_of(number: u32, place: u64, bus: u8) -> Way
    requires { place < 5000 }
    ensures { result ≡ way_of number place bus }
{
    if is_silent(place, bus) {
        Way::Missing
    } else {
        way_by(place, (place + u64::from(bus) + u64::from(number)) % 5)
    }
}

/// Whether a bus is silent as a source sends its transfer number `place`.
fn is_silent(place: u64, bus: u8) -> bool
    ensures { result ≡ is_silent place bus }
{
    bus == 0 && place >= 2000 && place <= 2999
}

/// How a transfer stands on a bus that isn't silent.
fn way_by(place: u64, remainder: u64) -> Way
    ensures { result ≡ way_by place remainder }
{
    match remainder {
        0 if place % 2 == 0 => Way::Missing,
        0 => Way::Headless,
        2 => Way::Twice,
        _ => Way::Whole,
    }
}
