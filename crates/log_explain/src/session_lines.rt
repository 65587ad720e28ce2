//! The lines on all sessions of a table.
ghost use Rattle.std.specs.Prelude.{◌≡◌, ◌≤◌, ◌-◌, ◌++◌, ◌^◌, min, length, OnOk};
ghost use Rattle.line_text.specs.Buffer.{text_of};
ghost use Rattle.log_explain.specs.SessionLines.{sessions_at, sessions_from, count_in};
ghost use Rattle.log_explain.specs.Text.{sessions_text};

use crate::session_line::{SessionLine, put_session};
use crate::tallies::{Tallies, slot_of};
use cy_bits::{BusName, NoMemory, ShortList};
use dsdl_types::Shape;
use line_text::TextBuffer;
use rx_table::{Port, Table};

/// Appends the lines on the sessions of a table.
pub(crate) fn put_sessions<S: Shape>(
    text: &mut TextBuffer,
    names: &ShortList<BusName, 3>,
    table: &Table<S>,
    tallies: &Tallies,
) -> Result<(), NoMemory>
    ensures { length table.now.ports.items ≤ 2 ^ 16 → OnOk result (text_of text.new
        ≡ text_of text.old ++ sessions_text names.now
        (sessions_from tallies.now.by_slot.items 0 table.now.ports.items)) }
{
    for place in 0..table.ports.len() {
        put_port(text, names, &table.ports[place], place, tallies)?;
    }
    Ok(())
}

/// Appends the lines on the sessions of the port at a place.
fn put_port<S: Shape>(
    text: &mut TextBuffer,
    names: &ShortList<BusName, 3>,
    port: &Port<S>,
    place: usize,
    tallies: &Tallies,
) -> Result<(), NoMemory>
    ensures { place ≤ 2 ^ 16 → OnOk result (text_of text.new
        ≡ text_of text.old ++ sessions_text names.now (sessions_at tallies.now.by_slot.items
        port.now.kind port.now.port place port.now.sessions.entries)) }
{
    for index in 0..port.sessions.len() {
        let (source, session) = port.sessions.get_index(index).unwrap();
        let line = SessionLine {
            kind: port.kind,
            port: port.port,
            source: *source,
            bus: session.force.bus,
            tally: tallies.at(slot_of(place, *source)),
        };
        put_session(text, names, &line)?;
    }
    Ok(())
}

/// How many sessions a table has, or 2^64 - 1 where they are more.
pub(crate) fn count_sessions<S: Shape>(table: &Table<S>) -> u64
    ensures { result ≡ min (count_in table.now.ports.items) (2 ^ 64 - 1) }
{
    let mut count: u64 = 0;
    for place in 0..table.ports.len() {
        count = count.saturating_add(table.ports[place].sessions.len() as u64);
    }
    count
}
