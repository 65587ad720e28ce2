//! Of the transfers of a sender only those that were sent are delivered, in order and once, and each
//! that is due is. The laws are over definitions alone: the functions do nothing.
#![tactic(auto)]

ghost use Rattle.delivery_theorems.specs.Selected.{Once};
ghost use Rattle.delivery_theorems.specs.Due.{DueIsDelivered};
ghost use Rattle.delivery_theorems.specs.Raw.{WireExplainsFields, WireExample};
ghost use Rattle.delivery_theorems.specs.Report.{OnceInReport, OnceInPart, DueInReport, Example};

/// Each delivery is a sent transfer, and these come in the order of the sent list, each at most once.
pub fn once()
    ensures { Once }
{}

/// Each due transfer is delivered.
pub fn due()
    ensures { DueIsDelivered }
{}

/// Once, of the lines of a report.
pub fn once_in_report()
    ensures { OnceInReport }
{}

/// Once, of the beginning of a report.
pub fn once_in_part()
    ensures { OnceInPart }
{}

/// Each due transfer is reported.
pub fn due_in_report()
    ensures { DueInReport }
{}

/// A sent list that explains a key's records by identifier and data explains them by their fields.
pub fn wire_explains_fields()
    ensures { WireExplainsFields }
{}

/// The premises of these laws can be met.
pub fn example()
    ensures { Example }
{}

/// They can be met by identifiers and data too.
pub fn wire_example()
    ensures { WireExample }
{}
