//! What `--help` writes of each command of the group `a node`.

/// Of `monitor`.
pub const MONITOR: &str = "\
cyphal monitor NODE < LOG

Reads a log as the node NODE, and writes at its end which other nodes are
online, what their last heartbeats say, and the network's time. No plan is
needed, and no file.

  NODE  0 to 127, a number that nobody has: what it sends itself is left aside
  LOG   lines as candump -L writes them, of can0, can1 and can2, in order of
        time, on standard input

Lines: node, who is online, with uptime in seconds, health, mode, code and how
often it restarted; offline, who had no heartbeat in the last 3 seconds; time
SOURCE OFFSET, whose clock tells the time, and how many microseconds it is from
the log's, or time -; and end.

Status: 0 done, 1 usage, 4 log refused, 8 read fault, 9 write fault,
10 out of memory, 11 input too long

Example: cyphal monitor 1 < examples/reach/online
";

/// Of `allocate`.
pub const ALLOCATE: &str = "\
cyphal allocate NODE < LOG

Reads a log as the node NODE, gives each node that has no node-ID and asks for
one a number that nobody has, and writes it with the frames that say so. No plan
is needed, and no file.

  NODE  0 to 127, the node-ID of the one who gives
  LOG   lines as candump -L writes them, of can0, can1 and can2, in order of
        time, on standard input

Lines: given MOMENT NODE UID, and tx MOMENT BUS IDENT HEX for each frame that
says so; full MOMENT UID, where no number is free; and end, with how many unique
ids have a number, once the log was read to its end.

Status: 0 done, 1 usage, 4 log refused, 8 read fault, 9 write fault,
10 out of memory, 11 input too long

Example: cyphal allocate 1 < examples/reach/wanted
";

/// Of `fetch`.
pub const FETCH: &str = "\
cyphal fetch NODE SERVER PATH < LOG

Fetches a file as the node NODE from the node SERVER over a log: writes each
request that it makes, with its frames, and where the log ends the file, or what
became of it. No plan is needed, and no file.

  NODE, SERVER  node-IDs, 0 to 127, not the same
  PATH          of the file on SERVER: 1 to 255 characters, each a space or a
                visible one of ASCII, and no hyphen in front
  LOG           lines as candump -L writes them, of can0, can1 and can2, in
                order of time, on standard input

Lines: ask MOMENT TID OFFSET, and tx MOMENT BUS IDENT HEX for each frame of it;
then one of file LENGTH HEX, refused CODE, gave up OFFSET (for 8 seconds without
a response), too long LENGTH (above 2^20), open OFFSET (the log ended before).

Status: 0 done, 1 usage, 4 log refused, 8 read fault, 9 write fault,
10 out of memory, 11 input too long

Example: cyphal fetch 123 42 a < examples/reach/replies
";
