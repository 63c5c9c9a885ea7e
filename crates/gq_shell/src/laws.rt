//! A law: what the definitions come to. It is the contract of a function that does nothing.
ghost use Rattle.gq_shell.specs.Statuses.{StatusesMean};

/// What a session's status means: all accepted, some refused, or stopped by a fault.
pub fn statuses_mean()
    ensures { StatusesMean }
{}
