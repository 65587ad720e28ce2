ghost use Rattle.std.specs.Prelude.{◌≡◌, ◌≤◌, ◌<◌, ◌∷◌, [], length, ℕ, List, None, slice_index_or};

use crate::gone::Gone;
use crate::node_state::NodeState;
use crate::renewal::Renewal;
use cy_bits::ShortList;
use std_types::node::Heartbeat;

/// The heartbeats of each node, as far as they tell how it is (Cyphal Specification,
/// section 5.3.2).
///
/// It stands for a list of heartbeats: those that `event` was called with.
#[derive(Drop)]
pub struct Monitor {
    /// By node-ID, how a node is that was heard.
    nodes: [Option<NodeState>; 128],
    /// The moment of the last heartbeat, or 0.
    latest: u64,
    ghost full: { length nodes ≡ 128 },
}

impl Monitor {
    ghost use Rattle.net_monitor.specs.Beats.{Beat};
    ghost use Rattle.net_monitor.specs.Online.{heard, online, gathered};
    ghost use Rattle.net_monitor.specs.Changes.{gone};
    ghost use Rattle.net_monitor.specs.Kept.{kept_online, kept_heard};
    ghost use Rattle.net_monitor.specs.Renewals.{renewal_by, kept_gone, kept_until, IsCalm};
    ghost use Rattle.net_monitor.specs.Stands.{Stands};

    /// No heartbeat yet.
    pub fn new() -> Monitor
        ensures stands { Stands [] result }
        ensures latest { result.latest ≡ 0 }
    {
        Monitor {
            nodes: [None; 128],
            latest: 0,
        }
    }

    /// Hears a heartbeat of a node, 0 to 127, at a moment in microseconds not before the last one,
    /// and tells what it made of the node.
    pub fn event(&mut self, moment: u64, node: u8, beat: &Heartbeat) -> Renewal
        requires order { self.old.latest ≤ moment }
        requires node { node ≤ 127 }
        ensures stands { (past : List Beat) → Stands past self.old
            → Stands (record { moment = moment; node = node; beat = beat.now } ∷ past) self.new }
        ensures renewal { (past : List Beat) → Stands past self.old
            → result ≡ renewal_by (record { moment = moment; node = node; beat = beat.now }) past }
        ensures latest { self.new.latest ≡ moment }
    {
        let before = self.state_of(node);
        let restarts = match before {
            Some(last) => last.restarts_after(beat.uptime),
            None => 0,
        };
        let state = NodeState {
            node,
            beat: *beat,
            last: moment,
            restarts,
        };
        self.nodes[node as usize] = Some(state);
        self.latest = moment;
        Renewal { before, state }
    }

    /// The nodes that were heard, ascending.
    pub fn heard(&self) -> ShortList<u8, 128>
        ensures { (past : List Beat) → Stands past self.now → result ≡ heard past }
    {
        let mut list = ShortList::new();
        for node in 0..128u8 {
            if self.state_of(node).is_some() {
                list.push(node);
            }
        }
        list
    }

    /// The nodes that are online at a moment in microseconds, ascending: those whose last heartbeat
    /// is at most 3 seconds before it, or behind it.
    pub fn online(&self, moment: u64) -> ShortList<NodeState, 128>
        ensures { (past : List Beat) → Stands past self.now → result ≡ online moment past }
    {
        let mut list = ShortList::new();
        for node in 0..128u8 {
            match self.online_at(node, moment) {
                Some(state) => list.push(state),
                None => {}
            }
        }
        list
    }

    /// The nodes that are online at one moment in microseconds and at another one no more,
    /// ascending; and until when those stay so that are online then.
    pub fn gone(&self, before: u64, moment: u64) -> Gone
        ensures nodes { (past : List Beat) → Stands past self.now
            → result.nodes ≡ gone before moment past }
        ensures calm { (past : List Beat) → Stands past self.now
            → IsCalm moment result.calm past }
    {
        let mut nodes = ShortList::new();
        let mut calm = u64::MAX;
        for node in 0..128u8 {
            match self.gone_at(node, before, moment) {
                Some(node) => nodes.push(node),
                None => {}
            }
            calm = calm.min(self.until_at(node, moment));
        }
        Gone { nodes, calm }
    }

    /// A node, where it is online at one moment and at another one no more.
    fn gone_at(&self, node: u8, before: u64, moment: u64) -> Option<u8>
        requires { node < 128 }
        ensures { result ≡ kept_gone before moment self.now.nodes node }
    {
        let state = self.state_of(node)?;
        if state.is_online(before) && !state.is_online(moment) {
            Some(node)
        } else {
            None
        }
    }

    /// Until when a node is online, where it is so at this moment.
    fn until_at(&self, node: u8, moment: u64) -> u64
        requires { node < 128 }
        ensures { result ≡ kept_until moment self.now.nodes node }
    {
        match self.state_of(node) {
            Some(state) if state.is_online(moment) => state.online_until(),
            Some(_) => u64::MAX,
            None => u64::MAX,
        }
    }

    /// How a node is, where it is online at this moment.
    fn online_at(&self, node: u8, moment: u64) -> Option<NodeState>
        requires { node < 128 }
        ensures { result ≡ kept_online moment self.now.nodes node }
    {
        let state = self.state_of(node)?;
        if state.is_online(moment) {
            Some(state)
        } else {
            None
        }
    }

    /// How a node is, where it was heard.
    fn state_of(&self, node: u8) -> Option<NodeState>
        requires { node < 128 }
        ensures { result ≡ slice_index_or self.now.nodes node None }
    {
        self.nodes[node as usize]
    }
}
