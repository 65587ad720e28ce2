//! What `cyphal --help` writes.
ghost use Rattle.command_words.specs.Overview.{fits_screen, overview_lines, HasLines};
ghost use Rattle.std.specs.Prelude.{◌≡◌, true};

use crate::table::COMMANDS;

/// The overview: the lines of the table between a head and a foot.
pub const OVERVIEW: &str = "\
Usage: cyphal COMMAND ARGUMENTS; cyphal COMMAND --help says more of a command.

a log   run ROOT PLAN           runs the node of a plan over a log: a report
        json ROOT PLAN          writes that report as lines of JSON
        explain ROOT PLAN       says what became of each frame of a log, and why
        survey BUSES            says what each bus and flow of a log carries
        nodes BUSES             says who comes and goes in a log, as it happens
        order MICROS            puts the lines of a log into the order of time
        gen NUMBER              makes a large log of a number, and runs it
a node  monitor NODE            says who is online in a log, and the time there
        allocate NODE           gives node-IDs to nodes that have none
        fetch NODE SERVER PATH  fetches a file of another node
a plan  bound ROOT PLAN         says how many bytes its sessions hold at most
        migrate ROOT PLAN       writes it in version 2 of its form
types   compile ROOT            compiles DSDL files, and writes their layouts
        compat ROOT NEW OLD     says whether NEW is newer than OLD
        versions ROOT           says so of each version and the one before it
        changes OLD NEW         says what an edit of a folder does to its types
values  encode ROOT TYPE        writes the hex of texts of values
        decode ROOT TYPE        writes the texts of the values that hex reads as

A log, values or hex come on standard input. ROOT is a folder of DSDL files, or
none. Status 0: done; others: COMMAND --help. More: man cyphal, the guide.
";

/// The overview. It has a line of each command, in the order of the table, and fits a screen of 24
/// lines of 80 columns.
pub fn overview() -> &'static str
    ensures is { result.now ≡ OVERVIEW.now }
    ensures lines { HasLines (overview_lines COMMANDS.now) result.now }
    ensures fits { fits_screen 24 result.now ≡ true }
{
    OVERVIEW
}
