//! What `--help` writes of each command of the group `values`.

/// Of `encode`.
pub const ENCODE: &str = "\
cyphal encode ROOT TYPE < VALUES

Reads each line of standard input as the text of a value, and writes the hex of
its bytes. Each line is answered before the next one is waited for; the first
that is no value ends it.

  ROOT    the folder with the DSDL files of the type
  TYPE    a message with its version, as demo.Choice.1.0, or half of a service,
          as demo.Check.1.0.Request
  VALUES  as {level: 5, name: #4142}: one space behind each comma and colon, and
          none elsewhere; bytes are # and their hex; a float is its bits, as
          0x3FC00000 for 1.5; an array is [1, 2]; a union {few: #0A0B}

Status: 0 done, 1 usage, 2 DSDL file refused, 5 line of no value, 8 read fault,
9 write fault, 10 out of memory, 11 input too long, 12 not found

Example:
  cyphal encode examples/values demo.Choice.1.0 < examples/values/choices
";

/// Of `decode`.
pub const DECODE: &str = "\
cyphal decode ROOT TYPE < HEX

Reads each line of standard input as hex, and writes the text of the value that
its bytes read as. Each line is answered before the next one is waited for; the
first that can't be answered ends it.

  ROOT  the folder with the DSDL files of the type
  TYPE  a message with its version, as demo.Choice.1.0, or a half of a service,
        as demo.Check.1.0.Request
  HEX   two digits a byte, of either case; an empty line is the empty payload.
        Bytes that are missing read as zeros, those behind the value are ignored

Status: 0 done, 1 usage, 2 DSDL file refused, 5 line of no value,
6 bytes that can't be read, 8 read fault, 9 write fault, 10 out of memory,
11 input too long, 12 not found

Example:
  echo 01020A0B | cyphal decode examples/values demo.Choice.1.0
";
