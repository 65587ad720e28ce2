//! The lines of changes among nodes.
ghost use Rattle.std.specs.Prelude.{◌≡◌, ◌≤◌, ◌++◌, ◌==◌, ◌∷◌, [], OnOk, codes, length, if◌then◌else◌};
ghost use Rattle.line_text.specs.Buffer.{text_of};
ghost use Rattle.net_monitor.specs.Changes.{downs};
ghost use Rattle.net_monitor.specs.Renewals.{restart_from, said_since, up_at, said_at, renewal_changes};
ghost use Rattle.node_reach.specs.ChangeLines.{down_line, numbers_line, up_line, change_lines, nodes_end};

use cy_bits::NoMemory;
use line_text::TextBuffer;
use net_monitor::{NodeState, Renewal};

/// Room for a line.
const LINE: usize = 256;

/// Appends the lines of nodes that went offline.
pub(crate) fn put_downs(text: &mut TextBuffer, moment: u64, nodes: &[u8]) -> Result<(), NoMemory>
    ensures { OnOk result
        (text_of text.new ≡ text_of text.old ++ change_lines moment (downs nodes.now)) }
{
    for node in nodes {
        put_down(text, moment, *node)?;
    }
    Ok(())
}

/// Appends the line of a node that went offline.
fn put_down(text: &mut TextBuffer, moment: u64, node: u8) -> Result<(), NoMemory>
    ensures { OnOk result (text_of text.new ≡ text_of text.old ++ down_line moment node) }
{
    text.reserve(LINE)?;
    text.put_moment(moment);
    text.put_slice(b" ");
    text.put_byte_word(node);
    text.put_slice(b"down\n");
    Ok(())
}

/// Appends the lines of what a heartbeat changed, at a record of this moment in microseconds.
pub(crate) fn put_renewal(
    text: &mut TextBuffer,
    moment: u64,
    renewal: &Renewal,
) -> Result<(), NoMemory>
    ensures { OnOk result (text_of text.new
        ≡ text_of text.old ++ change_lines moment (renewal_changes moment renewal.now)) }
{
    put_restart(text, moment, &renewal.state, renewal.uptime_before())?;
    put_said(text, moment, renewal.before, &renewal.state)
}

/// Appends the line of a restart, if there was one: where there was a greater uptime before.
fn put_restart(
    text: &mut TextBuffer,
    moment: u64,
    state: &NodeState,
    before: Option<u32>,
) -> Result<(), NoMemory>
    ensures { OnOk result (text_of text.new
        ≡ text_of text.old ++ change_lines moment (restart_from state.now before)) }
{
    match before {
        Some(before) => {
            let uptime = u64::from(state.beat.uptime);
            put_numbers(
                text,
                moment,
                state.node,
                b"restart",
                u64::from(before),
                uptime,
            )
        }
        None => Ok(()),
    }
}

/// Appends the lines of what a node says otherwise, where it was online, or else that it is online.
fn put_said(
    text: &mut TextBuffer,
    moment: u64,
    before: Option<NodeState>,
    state: &NodeState,
) -> Result<(), NoMemory>
    ensures { OnOk result (text_of text.new
        ≡ text_of text.old ++ change_lines moment (said_at moment before state.now)) }
{
    match before {
        Some(before) => put_since(text, moment, &before, state),
        None => put_up(text, moment, state),
    }
}

/// The same of a node that was heard before.
fn put_since(
    text: &mut TextBuffer,
    moment: u64,
    before: &NodeState,
    state: &NodeState,
) -> Result<(), NoMemory>
    ensures { OnOk result (text_of text.new
        ≡ text_of text.old ++ change_lines moment (said_at moment (Some before.now) state.now)) }
{
    if before.is_online(moment) {
        put_differences(text, moment, before, state)
    } else {
        put_up(text, moment, state)
    }
}

/// Appends the lines of what a node says otherwise than before.
fn put_differences(
    text: &mut TextBuffer,
    moment: u64,
    before: &NodeState,
    state: &NodeState,
) -> Result<(), NoMemory>
    ensures { OnOk result (text_of text.new
        ≡ text_of text.old ++ change_lines moment (said_since before.now state.now)) }
{
    let (old, new) = (&before.beat, &state.beat);
    let node = state.node;
    put_other(
        text,
        moment,
        node,
        b"health",
        old.health.value,
        new.health.value,
    )?;
    put_other(text, moment, node, b"mode", old.mode.value, new.mode.value)?;
    let (old, new) = (
        old.vendor_specific_status_code,
        new.vendor_specific_status_code,
    );
    put_other(text, moment, node, b"code", old, new)
}

/// Appends the line of a number that is another one than before, if it is.
fn put_other(
    text: &mut TextBuffer,
    moment: u64,
    node: u8,
    word: &[u8],
    old: u8,
    new: u8,
) -> Result<(), NoMemory>
    requires { length word.now ≤ 15 }
    ensures { OnOk result (text_of text.new ≡ text_of text.old
        ++ (if old == new then [] else numbers_line moment node word.now old new)) }
{
    if old == new {
        return Ok(());
    }
    put_numbers(text, moment, node, word, u64::from(old), u64::from(new))
}

/// Appends the line of a number that is another one than before.
fn put_numbers(
    text: &mut TextBuffer,
    moment: u64,
    node: u8,
    word: &[u8],
    old: u64,
    new: u64,
) -> Result<(), NoMemory>
    requires { length word.now ≤ 15 }
    ensures { OnOk result (text_of text.new
        ≡ text_of text.old ++ numbers_line moment node word.now old new) }
{
    text.reserve(LINE)?;
    text.put_moment(moment);
    text.put_slice(b" ");
    text.put_byte_word(node);
    text.put_slice(word);
    text.put_slice(b" ");
    text.put_number(old);
    text.put_slice(b" ");
    text.put_number(new);
    text.put_slice(b"\n");
    Ok(())
}

/// Appends the line that a node is online, if it is so at this moment.
fn put_up(text: &mut TextBuffer, moment: u64, state: &NodeState) -> Result<(), NoMemory>
    ensures { OnOk result (text_of text.new
        ≡ text_of text.old ++ change_lines moment (up_at moment state.now)) }
{
    if state.is_online(moment) {
        put_online(text, moment, state)
    } else {
        Ok(())
    }
}

/// Appends the line that a node is online.
fn put_online(text: &mut TextBuffer, moment: u64, state: &NodeState) -> Result<(), NoMemory>
    ensures { OnOk result (text_of text.new
        ≡ text_of text.old ++ up_line moment state.now.node state.now.beat) }
{
    let beat = &state.beat;
    text.reserve(LINE)?;
    text.put_moment(moment);
    text.put_slice(b" ");
    text.put_byte_word(state.node);
    text.put_slice(b"up uptime ");
    text.put_number(u64::from(beat.uptime));
    text.put_slice(b" health ");
    text.put_byte_word(beat.health.value);
    text.put_slice(b"mode ");
    text.put_byte_word(beat.mode.value);
    text.put_slice(b"code ");
    text.put_number(u64::from(beat.vendor_specific_status_code));
    text.put_slice(b"\n");
    Ok(())
}

/// Appends the last line: how many records came, how many nodes were heard, and how many restarts
/// were told.
pub(crate) fn put_nodes_end(
    text: &mut TextBuffer,
    records: u64,
    nodes: u64,
    restarts: u64,
) -> Result<(), NoMemory>
    ensures { OnOk result
        (text_of text.new ≡ text_of text.old ++ nodes_end records nodes restarts) }
{
    text.reserve(LINE)?;
    text.put_slice(b"end records ");
    text.put_number(records);
    text.put_slice(b" nodes ");
    text.put_number(nodes);
    text.put_slice(b" restarts ");
    text.put_number(restarts);
    text.put_slice(b"\n");
    Ok(())
}
