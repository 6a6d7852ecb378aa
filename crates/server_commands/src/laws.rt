//! What follows of the definitions alone.
ghost use Rattle.server_commands.specs.WholeSessions.{WholeRequestsAreAnswered};

/// Where a source has whole requests to give, fewer than a session may have, and nothing fails, a replayed session
/// answers all of them, up to the first that closes the connection; or memory runs out.
pub fn whole_requests_are_answered()
    ensures { WholeRequestsAreAnswered }
{}
