//! Laws of the definitions, each the contract of a call that does nothing.

ghost use Rattle.net_monitor.specs.Laws.{MonitorLaws};

/// What holds of the nodes heard and online, over every list of heartbeats.
pub fn monitor_laws()
    ensures { MonitorLaws }
{}
