ghost use Rattle.std.specs.Prelude.{◌≡◌, ◌<◌, length, true};
ghost use Rattle.dsdl_types.specs.Schemas.{is_composite};
ghost use Rattle.dsdl_types.specs.Rules.{IsSchema};
ghost use Rattle.dsdl_types.specs.Views.{sch};
ghost use Rattle.dsdl_types.specs.OneWay.{schema_prop};

use can_id::Ident;
use cy_bits::{List, NoMemory};
use dsdl_types::{Body, Schema, Shape, Shared};
use rx_session::{Outcome, Session};
use std::alloc::Global;
use tail_frame::{Frame, Tail};

/// A structure without fields, of which so many bytes are kept.
#[derive(Drop)]
struct Empty {
    schema: Schema,
    ghost rules: { IsSchema (sch schema) } by { schema_prop (sch schema) },
    ghost composite: { is_composite (sch schema) ≡ true },
}

impl Empty {
    /// With an extent in bytes.
    fn new(alloc: Global, extent: u16) -> Result<Empty, NoMemory> {
        let fields = Shared::new(alloc, List::empty(alloc))?;
        Ok(Empty {
            schema: Schema::Struct(Body {
                fields,
                extent: 8 * extent as u64,
                sealed: false,
            }),
        })
    }
}

impl Shape for Empty {
    ghost shape = { λ empty. sch empty.schema };

    fn extent_bytes(&self) -> usize {
        self.schema.extent_bytes()
    }

    fn schema(&self) -> &Schema {
        &self.schema
    }
}

/// A frame of node 1 on subject 100, by its data bytes.
fn frame<'a>(line: u64, data: &'a [u8]) -> Frame<'a>
    requires { 0 < length «data».now }
{
    let size = data.len() - 1;
    Frame {
        line,
        moment: line,
        bus: 0,
        ident: Ident::Message {
            priority: 4,
            subject: 100,
            source: 1,
        },
        tail: Tail::parse(data[size]),
        body: &data[..size],
    }
}

/// Frames of one session, a letter for what each comes to, and the payload delivered last.
struct Row {
    extent: u16,
    frames: &'static [&'static [u8]],
    letters: &'static [u8],
    payload: &'static [u8],
}

static ROWS: [Row; 4] = [
    Row {
        extent: 64,
        frames: &[
            b"\x00\x01\x02\x03\x04\x05\x06\xA2",
            b"\x07\x08\x09\x0A\x0B\x0C\xAC\x02",
            b"\x07\x08\x09\x0A\x0B\x0C\xAC\x02",
            b"\xDD\x62",
        ],
        letters: b"hhid",
        payload: b"\x00\x01\x02\x03\x04\x05\x06\x07\x08\x09\x0A\x0B\x0C",
    },
    Row {
        extent: 4,
        frames: &[
            b"\x00\x01\x02\x03\x04\x05\x06\xA3",
            b"\x07\x08\x09\x0A\x0B\x0C\x0D\x03",
            b"\x0E\x0F\x10\x11\x12\x13\x5A\x23",
            b"\x74\x43",
        ],
        letters: b"hhhd",
        payload: b"\x00\x01\x02\x03",
    },
    Row {
        extent: 4,
        frames: &[
            b"\x00\x01\x02\x03\x04\x05\x06\xA3",
            b"\x07\x08\x09\x0A\x0B\x0C\x0D\x03",
            b"\x0E\x0F\x10\x11\x12\x13\x5A\x23",
            b"\x75\x43",
        ],
        letters: b"hhhb",
        payload: b"",
    },
    Row {
        extent: 4,
        frames: &[b"\x01\xE0", b"\x02\xE0", b"\x03\xE1"],
        letters: b"did",
        payload: b"\x03",
    },
];

#[test]
fn puts_frames_together(rt: HostRuntime) -> Result<(), NoMemory> {
    for row in &ROWS {
        let shape = Empty::new(rt.alloc(), row.extent)?;
        let mut session = Session::open(rt.alloc(), &shape)?;
        let mut line = 0u64;
        for data in row.frames {
            assert!(rt; !data.is_empty() && line < 100);
            let letter = row.letters.get(line as usize);
            line += 1;
            let taken = frame(line, data);
            assert!(rt; session.force.heard <= taken.moment);
            let came = match session.accept(&taken, 2_000_000) {
                Outcome::Ignored => b'i',
                Outcome::Held => b'h',
                Outcome::BadCrc => b'b',
                Outcome::Delivered(delivery) => {
                    assert!(rt; line != row.frames.len() as u64 || delivery.payload == row.payload);
                    b'd'
                }
            };
            assert_eq!(rt; Some(&came), letter);
        }
    }
    Ok(())
}
