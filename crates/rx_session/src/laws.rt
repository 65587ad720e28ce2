//! The law of a session's two forms, the contract of a call that does nothing.

ghost use Rattle.rx_session.specs.Laws.{StepsAgree};

/// Two sessions that differ at most in bytes of their buffers that no running transfer has taken stay so,
/// and answer the same, where one accepts a record and the other steps with it.
pub fn steps_agree()
    ensures { StepsAgree }
{}
