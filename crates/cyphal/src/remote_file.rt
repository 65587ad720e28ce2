ghost use Rattle.std.specs.Prelude.{◌≢◌, ◌≤◌, length};

use crate::node_id::NodeId;
use crate::path::is_path;

/// A file of another node, and the node that fetches it.
#[derive(Clone, Copy, Drop)]
pub struct RemoteFile<'a> {
    /// The node that fetches it.
    pub own: NodeId,
    /// The node that has it, another one.
    pub server: NodeId,
    /// Its path on that node, of at most 255 bytes.
    pub path: &'a str,
    ghost apart: { server.number ≢ own.number },
    ghost short: { length path.now ≤ 255 },
}

impl<'a> RemoteFile<'a> {
    ghost use Rattle.std.specs.Prelude.{◌≡◌, option_map};
    ghost use Rattle.cyphal.specs.Words.{Fetch, fetch_given};

    /// The file at a path, where there are both nodes, they differ, and the path has at most 255
    /// bytes, each of them a space or a visible character of ASCII.
    pub fn new(own: Option<NodeId>, server: Option<NodeId>, path: &'a str) -> Option<RemoteFile<'a>>
        ensures { let number = option_map (λ node. node.number) in
            option_map (λ file. Fetch file.own.number file.server.number file.path.now) result
            ≡ fetch_given (number own) (number server) path.entry.now }
    {
        let own = own?;
        let server = server?;
        if server.number != own.number && is_path(path.as_bytes()) {
            Some(RemoteFile { own, server, path })
        } else {
            None
        }
    }
}
