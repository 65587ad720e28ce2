//! Laws of the lines of a session, each the contract of a call that does nothing.

ghost use Rattle.session_lines.specs.Example.{ValuesExample};
ghost use Rattle.session_lines.specs.OneJson.{JsonTellsLines};
ghost use Rattle.session_lines.specs.OneReport.{TextTellsLines};
ghost use Rattle.session_lines.specs.Readings.{LinesHaveReadings};
ghost use Rattle.session_lines.specs.Reported.{EmptyingIsQuiet, Reported, StepsReportAll};
ghost use Rattle.session_lines.specs.SameRecords.{SameRecords};
ghost use Rattle.session_lines.specs.Values.{DueValuesInReport, ValuesInReport};

/// The lines of each session are what its records deliver, in order.
pub fn reported()
    ensures { Reported }
{
    rx_table::laws::delivered_steps();
    rx_table::laws::quiet();
}

/// The records of a session that a sent list explains are those whose deliveries its lines are.
pub fn same_records()
    ensures { SameRecords }
{}

/// What leaves behind the last step is in no report of a session: all lines of a log report what
/// those of its steps do.
pub fn emptying()
    ensures quiet { EmptyingIsQuiet }
    ensures reported { StepsReportAll }
{}

/// Each line on a transfer has the reading of its payload by the type of its port.
pub fn readings()
    ensures { LinesHaveReadings }
{}

/// What is sent as a value is reported as that value, also where the sender has a newer or an older
/// version of the port's type (Cyphal Specification, sections 3.7 and 3.8), in each front of the
/// lines of a log.
pub fn values()
    ensures { ValuesInReport }
{
    reported();
    emptying();
    readings();
    delivery_theorems::once_in_report();
    std_types::laws::schemas_keep_rules();
    dsdl_types::laws::rules_suffice();
    dsdl_types::laws::round_trip();
    dsdl_types::laws::within_extent();
    dsdl_types::laws::evolution();
}

/// Each due transfer that is sent as a value is reported as that value.
pub fn due_values()
    ensures { DueValuesInReport }
{
    reported();
    values();
    delivery_theorems::due_in_report();
}

/// The premises of these laws on values can be met.
pub fn example()
    ensures { ValuesExample }
{}

/// No two lists of lines of one plan have one text.
pub fn text_tells_lines()
    ensures { TextTellsLines }
{}

/// No two lists of lines of one plan have one JSON text, whichever numbers their floats are written
/// by.
pub fn json_tells_lines()
    ensures { JsonTellsLines }
{}
