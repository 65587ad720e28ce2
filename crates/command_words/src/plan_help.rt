//! What `--help` writes of each command of the group `a plan`.

/// Of `bound`.
pub const BOUND: &str = "\
cyphal bound ROOT PLAN

Writes port by port how many bytes the sessions of a plan hold at most, and how
many that are together. It reads no log.

  ROOT  the folder with the DSDL files of the types that the plan names, or none
  PLAN  a file, as for cyphal run

Lines: port KIND PORT sources N extent N bytes N, and bound N.

Status: 0 done, 1 usage, 2 DSDL file refused, 3 plan refused, 8 read fault,
9 write fault, 10 out of memory, 12 not found

Example: cyphal bound examples/typed/types examples/typed/plan
";

/// Of `migrate`.
pub const MIGRATE: &str = "\
cyphal migrate ROOT PLAN

Writes the text of a plan in version 2 of its form, in which each interface has
its own frame size and rate: bus NAME becomes bus NAME MTU RATE, and an empty
line stands where mtu or rate stood. All else stays, byte for byte, and so does
a plan of version 2. It reads no log, and changes no file.

  ROOT  the folder with the DSDL files of the types that the plan names, or none
  PLAN  a file, as for cyphal run

Status: 0 done, 1 usage, 2 DSDL file refused, 3 plan refused, 8 read fault,
9 write fault, 10 out of memory, 12 not found

Example: cyphal migrate none examples/handover/plan
";
