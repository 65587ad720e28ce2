//! What `--help` writes of each command of the group `types`.

/// Of `compile`.
pub const COMPILE: &str = "\
cyphal compile ROOT

Compiles the files below a folder whose names end in .dsdl, and writes of each
type its extent, its lengths, and where its fields can stand, in bits.

  ROOT  the folder above the first name of the types: of uavcan.node.Heartbeat
        the one that holds uavcan; none stands for no files

Lines: print FILE LINE TEXT, what @print says; type NAME, its kind, port and
extent, whether it is sealed, and its lengths; field NAME TYPE at its places,
size its lengths, or variant NAME TAG in a union. The first file that is refused
is named with its line and the cause.

Status: 0 done, 1 usage, 2 DSDL file refused, 8 read fault, 9 write fault,
10 out of memory, 12 not found

Example: cyphal compile examples/types
";

/// Of `compat`.
pub const COMPAT: &str = "\
cyphal compat ROOT NEW OLD

Writes newer, with status 0, only where nodes with the type NEW can live beside
nodes with OLD: each reads what the other sends. Some types that would be read
are refused all the same, as where a cast alone changes.

  ROOT      the folder with the DSDL files of both types
  NEW, OLD  names with versions, as demo.Num.1.1; services as a whole, or halves
            of them, with .Request or .Response behind

Where NEW isn't newer, standard error has the first place that differs, and why:
Kind, Sealing, Extent, Sealed or Count.

Status: 0 done, 1 usage, 2 DSDL file refused, 7 not newer, 8 read fault,
9 write fault, 10 out of memory, 12 not found

Example: cyphal compat examples/versions demo.Num.1.1 demo.Num.1.0
";

/// Of `versions`.
pub const VERSIONS: &str = "\
cyphal versions ROOT

Compares each version of a type with the one before it of the same major version
above 0, as cyphal compat does, for whoever keeps a library of types.

  ROOT  the folder with the DSDL files

Lines, in the order of names and versions: NEW OLD newer, or NEW OLD not newer
at PATH: WHY. Where one isn't newer all lines are written, standard error has
the first that isn't, and the status is 7.

Status: 0 done, 1 usage, 2 DSDL file refused, 7 not newer, 8 read fault,
9 write fault, 10 out of memory, 12 not found

Example: cyphal versions examples/values
";

/// Of `changes`.
pub const CHANGES: &str = "\
cyphal changes OLD NEW

Compares two states of a folder, as git worktree gives of two commits: what the
edit of a type, of major 0 too, does to those who have it as it was.

  OLD, NEW  the folders with the DSDL files, or none; OLD is compiled first

Lines, by name and version, of a service by its halves: NAME, and same; renamed
(but for names of fields, which aren't sent); newer or not newer at PATH: WHY,
as cyphal compat says it of NEW's beside OLD's; added or gone, where one alone
has it. Where the fixed port differs, port OLDPORT NEWPORT stands behind.

Where a type isn't newer, is gone, or isn't at the port that it had, all lines
are written, standard error has the first of these, and the status is 7.

Status: 0 done, 1 usage, 2 DSDL file refused, 7 not newer, 8 read fault,
9 write fault, 10 out of memory, 12 not found

Example: cyphal changes none examples/types
";
