//! The line on what the table told of a frame.
ghost use Rattle.std.specs.Prelude.{◌≡◌, ◌∷◌, [], None, IfSome, option_map, Option as OptionOf};
ghost use Rattle.can_id.specs.Identifiers.{key_of};
ghost use Rattle.can_id.specs.declared.key.Key.{Key};
ghost use Rattle.tail_frame.specs.Frames.{key_record, seen};
ghost use Rattle.dsdl_types.specs.Schemas.{Sch};
ghost use Rattle.dsdl_types.specs.Views.{sch};
ghost use Rattle.rx_session.specs.Session.{Delivered};
ghost use Rattle.rx_table.specs.Table.{fed_answer};
ghost use Rattle.node_core.specs.Quick.{IsUntyped};
ghost use Rattle.node_core.specs.Steps.{refused_line};
ghost use Rattle.node_core.specs.Told.{outcome_lines, answer_lines, answer_is_bad};
ghost use Rattle.report_lines.specs.Lent.{HasType, owned, told_lines};
ghost use Rattle.node_core.specs.Types.{type_at};

use crate::port_shape::PortShape;
use can_id::Key;
use report_lines::{CompiledShape, LineRef, Refused, RxRef};
use rx_session::{Delivery, Outcome};
use rx_table::{Fed, Table};
use tail_frame::Frame;

/// The line on what the table told of a frame, if there is one.
#[inline(always)]
pub fn line_on<'a>(table: &'a Table<PortShape>, frame: &Frame, fed: Fed<'a>) -> Option<LineRef<'a>>
    ensures line { let port_type = type_at table.now (key_of frame.now.ident) in
        told_lines result ≡ answer_lines port_type (seen frame.now) (fed_answer fed.entry) }
    ensures typed { IfSome result (HasType (type_at table.now)) }
{
    match fed {
        Fed::NoPort => None,
        Fed::NoSession => Some(refused(frame)),
        Fed::Anonymous(delivery) => Some(received(table, frame.ident.key(), delivery)),
        Fed::Session(Outcome::Delivered(delivery)) => {
            Some(received(table, frame.ident.key(), delivery))
        }
        Fed::Session(Outcome::BadCrc) => None,
        Fed::Session(Outcome::Ignored) => None,
        Fed::Session(Outcome::Held) => None,
    }
}

/// The same on a port without a type.
#[inline(always)]
pub fn untyped_line<'a>(frame: &Frame, fed: Fed<'a>) -> Option<LineRef<'a>>
    ensures line { told_lines result ≡ answer_lines None (seen frame.now) (fed_answer fed.entry) }
    ensures typed { (types : Key → OptionOf Sch) → types (key_of frame.now.ident) ≡ None
        → IfSome result (HasType types) }
    ensures untyped { IfSome result IsUntyped }
{
    match fed {
        Fed::NoPort => None,
        Fed::NoSession => Some(refused(frame)),
        Fed::Anonymous(delivery) => Some(received_as(None, frame.ident.key(), delivery)),
        Fed::Session(Outcome::Delivered(delivery)) => {
            Some(received_as(None, frame.ident.key(), delivery))
        }
        Fed::Session(Outcome::BadCrc) => None,
        Fed::Session(Outcome::Ignored) => None,
        Fed::Session(Outcome::Held) => None,
    }
}

/// The line of a transfer that was received.
#[inline(always)]
fn received<'a>(table: &'a Table<PortShape>, key: Key, delivery: Delivery<'a>) -> LineRef<'a>
    ensures line { let d = delivery.entry in
        owned result ∷ [] ≡ outcome_lines (type_at table.now key) key
        (Delivered d.bus d.priority d.tid d.first d.last d.moment d.payload.now) }
    ensures typed { HasType (type_at table.now) result }
{
    received_as(type_at(table, key), key, delivery)
}

/// The line of a transfer that was received on a port of this type.
#[inline(always)]
fn received_as<'a>(
    port_type: Option<&'a CompiledShape>,
    key: Key,
    delivery: Delivery<'a>,
) -> LineRef<'a>
    ensures line { let d = delivery.entry in
        owned result ∷ [] ≡ outcome_lines
        (option_map (λ shape. sch shape.now.schema) port_type.entry) key
        (Delivered d.bus d.priority d.tid d.first d.last d.moment d.payload.now) }
    ensures typed { (types : Key → OptionOf Sch)
        → option_map (λ shape. sch shape.now.schema) port_type.entry ≡ types key
        → HasType types result }
    ensures untyped { port_type.entry ≡ None → IsUntyped result }
{
    LineRef::Rx(RxRef {
        moment: delivery.moment,
        bus: delivery.bus,
        key,
        priority: delivery.priority,
        tid: delivery.tid,
        port_type,
        first: delivery.first,
        last: delivery.last,
        payload: delivery.payload,
    })
}

/// The type of the port that a transfer came on, or `None` where it has none.
#[inline(always)]
fn type_at(table: &Table<PortShape>, key: Key) -> Option<&CompiledShape>
    ensures { option_map (λ shape. sch shape.now.schema) result ≡ type_at table.now key }
{
    table.shape(key.kind, key.port)?.compiled()
}

/// The line of a start frame for whose source its port has no session left.
#[cold]
fn refused<'a>(frame: &Frame) -> LineRef<'a>
    ensures line { owned result
        ≡ refused_line (key_of frame.now.ident) (key_record (seen frame.now)) }
    ensures typed { (types : Key → OptionOf Sch) → HasType types result }
{
    LineRef::NoSession(Refused {
        moment: frame.moment,
        bus: frame.bus,
        key: frame.ident.key(),
        line: frame.line,
    })
}

/// Whether a frame ends a transfer whose bytes don't fit their CRC.
#[inline(always)]
pub fn is_bad(fed: Fed<'_>) -> bool
    ensures { result ≡ answer_is_bad (fed_answer fed.entry) }
{
    matches!(fed, Fed::Session(Outcome::BadCrc))
}
