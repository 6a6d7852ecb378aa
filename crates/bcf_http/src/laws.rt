//! What follows of the definitions alone.
ghost use Rattle.bcf_http.specs.ListRequests.{ListRequestsHaveOneAnswer};

/// A request for a list of topics has one listing, or one fault, but for want of memory.
pub fn list_requests_have_one_answer()
    ensures { ListRequestsHaveOneAnswer }
{}
