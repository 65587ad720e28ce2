//! Laws of what is told, each the contract of a call that does nothing.
ghost use Rattle.log_explain.specs.Laws.{AsRun, AsRuns};

/// A record is told as delivered, as refused a session, and as a bad CRC exactly where a run of the
/// same plan tells so of it, and with the same lines of the log.
pub fn as_run()
    ensures { AsRun }
{}

/// Over a whole log the deliveries that are told are those of the `rx` lines of a run of the same
/// plan, in their order; so are the start frames without a session; and there are as many bad CRCs
/// as the run counts.
pub fn as_runs()
    ensures { AsRuns }
{}
