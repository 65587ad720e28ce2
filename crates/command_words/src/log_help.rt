//! What `--help` writes of each command of the group `a log`.

/// Of `run`.
pub const RUN: &str = "\
cyphal run ROOT PLAN < LOG

Runs the node of a plan over a log of CAN frames, and writes a report: each
transfer that the node received, once, and each frame that it would send. No
interface is opened: nothing reaches a bus by itself.

  ROOT  the folder with the DSDL files of the types that the plan names, or none
  PLAN  a file: the node-ID, interfaces, subscriptions, registers and files of
        the node, a line each, as man cyphal has them
  LOG   lines as candump -L writes them, in order of time, on standard input

Lines: rx, a transfer: MOMENT BUS KIND PORT SOURCE PRIORITY TID, its FIRST and
LAST line, PAYLOAD, and what it reads as; nosession, a start frame of a source
too many; tx, a frame that leaves; full, a transfer that finds no room in a
queue; and end, with the counts, once the log was read to its end.

Status: 0 done, 1 usage, 2 DSDL file refused, 3 plan refused, 4 log refused,
8 read fault, 9 write fault, 10 out of memory, 11 input too long, 12 not found

Example: cyphal run none examples/first/plan < examples/first/log
";

/// Of `json`.
pub const JSON: &str = "\
cyphal json ROOT PLAN < LOG

Does what cyphal run does, and writes each line of the report as a JSON object,
for jq, DuckDB, pandas and other programs.

  ROOT  the folder with the DSDL files of the types that the plan names, or none
  PLAN  a file, as for cyphal run
  LOG   lines as candump -L writes them, in order of time, on standard input

The member line says which line it is: rx, nosession, tx, full or end. Numbers
are JSON numbers, the moment too. Where a port has a type, value is what its
payload reads as, or error says why it can't be read. A float that is no number
is the string NaN, Infinity or -Infinity.

Status: 0 done, 1 usage, 2 DSDL file refused, 3 plan refused, 4 log refused,
8 read fault, 9 write fault, 10 out of memory, 11 input too long, 12 not found

Example:
  cyphal json examples/typed/types examples/typed/plan < examples/typed/log
";

/// Of `explain`.
pub const EXPLAIN: &str = "\
cyphal explain ROOT PLAN < LOG

Reads a plan and a log as cyphal run does, and writes what became of each frame:
delivered, a copy, on an interface that stands by, or why it was dropped. It
sends nothing, and answers no request.

  ROOT  the folder with the DSDL files of the types that the plan names, or none
  PLAN  a file, as for cyphal run
  LOG   lines as candump -L writes them, in order of time, on standard input

Lines: frame LINE MOMENT BUS KIND PORT SOURCE TID, and what became of it, as
delivered N (its transfer began on line N), standby BUS MICROS (BUS was silent
for so long), copy N, badcrc N or nosession; and once the log was read to its
end, session, how each session fared, and end. cyphal-draw draws all this.

Status: 0 done, 1 usage, 2 DSDL file refused, 3 plan refused, 4 log refused,
8 read fault, 9 write fault, 10 out of memory, 11 input too long, 12 not found

Example:
  cyphal explain none examples/redundant/plan < examples/redundant/log
";

/// Of `survey`.
pub const SURVEY: &str = "\
cyphal survey BUSES < LOG

Reads a log without a plan, and writes at its end what each interface carries,
and each flow: the frames of a port, a source, a destination and an interface.

  BUSES  the names of all interfaces of the log, one to three that differ, with
         a comma between, as can0,can1; each is 1 to 15 letters, digits or _
  LOG    lines as candump -L writes them, in order of time, on standard input

Lines: bus NAME, how many records it has and how many are no frame, the first
and the last moment, and the longest silence in microseconds; port KIND PORT
SOURCE DESTINATION BUS, how many frames, starts, copies, gaps and bytes it has,
and the least and the greatest time between two starts; and end.

Status: 0 done, 1 usage, 4 log refused, 8 read fault, 9 write fault,
10 out of memory, 11 input too long

Example: cyphal survey can0,can1 < examples/survey/log
";

/// Of `nodes`.
pub const NODES: &str = "\
cyphal nodes BUSES < LOG

Reads a log without a plan, and writes which nodes come, go and restart, and how
each is, with the record that shows it. It can follow a live bus in a pipe.

  BUSES  the names of all interfaces of the log, as for cyphal survey
  LOG    lines as candump -L writes them, in order of time, on standard input

Lines: MOMENT NODE, and down (more than 3 s behind its last heartbeat); restart
OLD NEW (its uptime fell); up uptime N health N mode N code N (its first
heartbeat, or the first behind down); health, mode or code OLD NEW (another one
than with the heartbeat before); and end, with the counts.

Status: 0 done, 1 usage, 4 log refused, 8 read fault, 9 write fault,
10 out of memory, 11 input too long

Example: cyphal nodes can0,can1 < examples/survey/log
";

/// Of `order`.
pub const ORDER: &str = "\
cyphal order MICROS < LOG

Writes the lines of a log in the order of their moments, those of one moment in
the order of the input, with one space between their parts. It stands in a pipe
in front of a command that refuses a log out of order.

  MICROS  how many microseconds late a line may come, 0 to 60000000
  LOG     lines as candump -L writes them, of any interfaces, on standard input

A line is written as soon as one is read that is MICROS later, and those that
are left at the end of the log.

Status: 0 done, 1 usage, 4 log refused, 8 read fault, 9 write fault,
10 out of memory, 11 input too long

Examples: cyphal order 10000 < examples/order/log
  candump -L can0 can1 | cyphal order 10000 | cyphal run none plan
";

/// Of `gen`.
pub const GEN: &str = "\
cyphal gen NUMBER

Makes a log of 20,000 transfers of four nodes on three interfaces, some of them
damaged, of a number, runs it as cyphal run does, and writes how much of it was
received. It reads neither a file nor standard input.

  NUMBER  0 to 4294967295; the same one makes the same log

Line: gen NUMBER transfers 20000 delivered N badcrc N nosession N held N bound N

Status: 0 done, 1 usage, 9 write fault, 10 out of memory

Example: cyphal gen 2
";
