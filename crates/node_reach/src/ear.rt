//! What a node hears on ports of standard types.
ghost use Rattle.node_reach.specs.InTime.{IsInTime, IsInTime-prop};
ghost use Rattle.node_reach.specs.PortTypes.{type_schema};

use crate::transfer::{Transfer, transfer_of};
use can_id::Kind;
use cy_bits::NoMemory;
use rx_table::laws::outcome_tells;
use rx_table::{Met, SubscribeError, Table, frame_for};
use std::alloc::Global;
use std_types::{StdName, StdType, std_type};
use tail_frame::{Frame, Record};

/// A node that listens on some ports. It stands for the records of a log that it has heard.
#[derive(Drop)]
pub struct Ear {
    /// Its node-ID, at most 127, or a greater number where it has none.
    pub own: u8,
    /// The sessions of the sources that it hears.
    pub table: Table<StdType>,
    /// The moment of the last record, in microseconds, or 0.
    pub latest: u64,
    ghost in_time: { IsInTime latest table } by { IsInTime-prop latest table },
}

/// What a record came to.
#[derive(Clone, Copy)]
pub struct Heard<'a> {
    /// The frame that it is, where that is one for the node.
    pub frame: Option<Frame<'a>>,
    /// What the frame came to in the table.
    pub met: Met,
}

/// The sources that get a session on a port.
const SOURCES: u16 = 128;

/// The silence of a bus, in microseconds, after which another takes over, where nothing else is
/// said.
pub(crate) const TIMEOUT: u64 = 2_000_000;

impl Ear {
    ghost use Rattle.std.specs.Prelude.{◌≡◌, ◌≤◌, ◌<◌, ◌^◌, ◌+◌, ◌++◌, ◌∷◌, [], None, IfOk, IfSome, OnOk, option_map, length};
    ghost use Rattle.rx_table.specs.Ports.{port_at};
    ghost use Rattle.rx_table.specs.Views.{subscriptions};
    ghost use Rattle.std_types.specs.Types.{schema_of};
    ghost use Rattle.node_reach.specs.Transfers.{Ears, port_for};
    ghost use Rattle.can_id.specs.Identifiers.{IsIdent};
    ghost use Rattle.rx_table.specs.Places.{table_answer};
    ghost use Rattle.rx_table.specs.Table.{keyed};
    ghost use Rattle.tail_frame.specs.Frames.{key_record, seen};
    ghost use Rattle.node_reach.specs.Ears.{Hears, Takes, Tells, states_in, told};
    ghost use Rattle.node_reach.specs.Told.{owned, answered};

    /// A node with this node-ID that listens on no port, and takes a bus as silent after so many
    /// microseconds.
    pub(crate) fn new(alloc: Global, own: u8, timeout: u64) -> Result<Ear, NoMemory>
        ensures hears { IfOk result (λ ear.
            Hears (record { own = own; timeout = timeout; ports = [] }) ear []) }
        ensures count { IfOk result (λ ear. length ear.table.ports.items ≡ 0) }
        ensures latest { IfOk result (λ ear. ear.latest ≡ 0) }
    {
        let table = Table::new(alloc, timeout)?;
        Ok(Ear {
            own,
            table,
            latest: 0,
        })
    }

    /// Listens on a port for transfers of a standard type, before it hears a record. It doesn't
    /// listen on that port yet, and on fewer than 2^16.
    pub(crate) fn subscribe(
        &mut self,
        alloc: Global,
        kind: Kind,
        port: u16,
        name: StdName,
    ) -> Result<(), NoMemory>
        requires free { port_at kind port (subscriptions type_schema self.old.table) ≡ None }
        requires room { length self.old.table.ports.items < 2 ^ 16 }
        ensures own { self.new.own ≡ self.old.own }
        ensures latest { self.new.latest ≡ self.old.latest }
        ensures count { OnOk result
            (length self.new.table.ports.items ≡ length self.old.table.ports.items + 1) }
        ensures hears { OnOk result ((ears : Ears) → Hears ears self.old [] → Hears (record ears {
          ports = ears.ports ++ port_for kind port (schema_of name) ∷ [];
        }) self.new []) }
    {
        let standard = std_type(alloc, name)?;
        match self.table.subscribe(kind, port, SOURCES, standard) {
            Ok(()) => Ok(()),
            Err(SubscribeError::NoMemory) => Err(NoMemory),
            Err(SubscribeError::Taken) => unreachable!(),
        }
    }

    /// Takes the next record of a log, at a moment not before the last one. Memory is taken for a
    /// new source's session.
    pub(crate) fn hear<'a>(&mut self, rec: &'a Record) -> Result<Heard<'a>, NoMemory>
        requires moment { self.old.latest ≤ rec.now.moment }
        ensures own { self.new.own ≡ self.old.own }
        ensures latest { self.new.latest ≡ rec.now.moment }
        ensures hears { OnOk result (Takes rec.now self.old self.new) }
        ensures told { IfOk result (λ heard. Tells self.old rec.now (told self.new heard)) }
        ensures ident { IfOk result (λ heard. IfSome heard.frame (λ frame. IsIdent frame.ident)) }
    {
        outcome_tells();
        self.latest = rec.moment;
        match frame_for(self.own, rec) {
            Some(frame) => {
                let met = self.table.step(&frame)?;
                Ok(Heard {
                    frame: Some(frame),
                    met,
                })
            }
            None => Ok(Heard {
                frame: None,
                met: Met::NoPort,
            }),
        }
    }

    /// The transfer that ended at a record, if one did, by what that came to: it was the last that
    /// was taken.
    pub(crate) fn transfer<'a>(&'a self, heard: Heard<'a>) -> Option<Transfer<'a>>
        requires ident { IfSome heard.frame (λ frame. IsIdent frame.ident) }
        ensures told { option_map owned result ≡ told self.now heard.entry }
        ensures source { IfSome result (λ transfer. transfer.source < 128) }
    {
        match heard.frame {
            Some(frame) => self.transfer_in(&frame, heard.met),
            None => None,
        }
    }

    /// The transfer that ended at a frame, if one did.
    fn transfer_in<'a>(&'a self, frame: &Frame<'a>, met: Met) -> Option<Transfer<'a>>
        requires ident { IsIdent frame.now.ident }
        ensures told { let f = seen frame.now in
            let answer = table_answer (states_in self.now) (key_record f) met in
            option_map owned result ≡ answered (keyed f) answer }
        ensures source { IfSome result (λ transfer. transfer.source < 128) }
    {
        let key = frame.ident.key();
        match key.source {
            Some(source) => transfer_of(key.kind, key.port, source, self.table.lend(met, frame)),
            None => None,
        }
    }
}
