ghost use Rattle.std.specs.Prelude.{◌≡◌, ◌^◌, ◌≤◌, true, IfOk};
ghost use Rattle.dsdl_types.specs.Schemas.{is_composite};
ghost use Rattle.dsdl_types.specs.Rules.{IsSchema};
ghost use Rattle.dsdl_types.specs.Views.{sch};
ghost use Rattle.dsdl_types.specs.OneWay.{schema_prop};
ghost use Rattle.rx_session.specs.Extents.{bytes_of};

use can_id::{Ident, Kind};
use cy_bits::{List, NoMemory};
use dsdl_types::{Body, Schema, Shape, Shared};
use rx_session::Outcome;
use rx_table::{Fed, SubscribeError, Table};
use std::alloc::Global;
use tail_frame::{Frame, Tail};

/// A structure without fields, of which four bytes are kept.
#[derive(Drop)]
struct Four {
    schema: Schema,
    ghost rules: { IsSchema (sch schema) } by { schema_prop (sch schema) },
    ghost composite: { is_composite (sch schema) ≡ true },
}

impl Four {
    fn new(alloc: Global) -> Result<Four, NoMemory>
        ensures { IfOk result (λ four. bytes_of (sch four.schema) ≤ 2 ^ 29) }
    {
        let fields = Shared::new(alloc, List::empty(alloc))?;
        Ok(Four {
            schema: Schema::Struct(Body {
                fields,
                extent: 32,
                sealed: false,
            }),
        })
    }
}

impl Shape for Four {
    ghost shape = { λ four. sch four.schema };

    fn extent_bytes(&self) -> usize {
        self.schema.extent_bytes()
    }

    fn schema(&self) -> &Schema {
        &self.schema
    }
}

/// A whole transfer on subject 100.
fn whole<'a>(moment: u64, ident: Ident, tid: u8, body: &'a [u8]) -> Frame<'a>
    ensures { result.moment ≡ moment }
{
    Frame {
        line: moment,
        moment,
        bus: 0,
        ident,
        tail: Tail {
            start: true,
            end: true,
            toggle: true,
            tid,
        },
        body,
    }
}

/// The message of a node on a subject.
fn message(subject: u16, source: u8) -> Ident {
    Ident::Message {
        priority: 4,
        subject,
        source,
    }
}

/// A letter for what a frame came to, and how many payload bytes it delivered.
fn told(fed: Fed<'_>) -> (u8, usize) {
    match fed {
        Fed::NoPort => (b'p', 0),
        Fed::NoSession => (b'n', 0),
        Fed::Anonymous(delivery) => (b'a', delivery.payload.len()),
        Fed::Session(Outcome::Delivered(delivery)) => (b'd', delivery.payload.len()),
        Fed::Session(_) => (b'i', 0),
    }
}

#[test]
fn feeds_two_sources(rt: HostRuntime) -> Result<(), NoMemory> {
    let mut table = Table::new(rt.alloc(), 2_000_000)?;
    let four = || Four::new(rt.alloc());
    assert_eq!(rt; table.subscribe(Kind::Message, 100, 2, four()?), Ok(()));
    let again = table.subscribe(Kind::Message, 100, 2, four()?);
    assert_eq!(rt; again, Err(SubscribeError::Taken));
    let rows = [
        (message(100, 1), 0, (b'd', 4)),
        (message(100, 2), 1, (b'd', 4)),
        (message(100, 3), 2, (b'n', 0)),
        (message(100, 1), 0, (b'i', 0)),
        (message(101, 1), 0, (b'p', 0)),
    ];
    for (ident, tid, want) in rows {
        let fed = table.feed(&whole(5, ident, tid, b"\x01\x02\x03\x04\x05"))?;
        assert_eq!(rt; told(fed), want);
    }
    assert_eq!(rt; table.held(), 8);
    assert!(rt; table.shape(Kind::Message, 100).is_some());
    assert!(rt; table.sources(Kind::Message, 100).as_slice() == [1u8, 2].as_slice());
    Ok(())
}
