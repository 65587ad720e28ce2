//! Laws of the report, each the contract of a call that does nothing.

ghost use Rattle.node_core.specs.Held.{HeldRises};
ghost use Rattle.node_core.specs.Laws.{LinesJoin, NothingEmptied, NothingLeaves, RecordsOfSteps};
ghost use Rattle.node_core.specs.Laws.{MuteKeepNothing, MuteReceive};
ghost use Rattle.node_core.specs.Laws.{NothingServed, ServedOnce, SomethingServed};
ghost use Rattle.node_core.specs.Laws.{RegistersAre, RegistersStay};

use dsdl_types::laws::{readings_stored, rules_suffice};
use file_service::file_laws;
use register_service::laws::register_laws;
use std_types::laws::schemas_keep_rules;

/// The bytes that a log makes a node hold never fall: after its last record they are the most.
pub fn held_rises()
    ensures { HeldRises }
{}

/// The steps of a log have its records, and the lines of newer steps stand behind those of older
/// ones.
pub fn steps_follow()
    ensures records { RecordsOfSteps }
    ensures lines { LinesJoin }
{}

/// Where nothing waits, nothing leaves after a step, and nothing at the end.
pub fn nothing_leaves()
    ensures after { NothingLeaves }
    ensures end { NothingEmptied }
{}

/// A silent node that answers no service sends nothing: its lines are those on what it receives.
pub fn mute_sends_nothing()
    ensures keeps { MuteKeepNothing }
    ensures lines { MuteReceive }
{}

/// The registers of a node are those of its plan after all that was asked, and each stays within
/// its limits.
pub fn registers_stay()
    ensures registers { RegistersAre }
    ensures within { RegistersStay }
{
    register_laws();
    schemas_keep_rules();
    rules_suffice();
    readings_stored();
}

/// A node that serves no files asks its tree nothing: its steps are those of the records alone.
pub fn nothing_served()
    ensures { NothingServed }
{}

/// Where a tree tells its files, what it told in a log is decided by them and by where it failed.
pub fn served_once()
    ensures { ServedOnce }
{
    file_laws();
}

/// Whatever is asked behind a log, there is something that the tree may tell.
pub fn something_served()
    ensures { SomethingServed }
{}
