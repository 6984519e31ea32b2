//! Laws of requests. No code calls them.

ghost use Rattle.rd_messages.specs.Asked.{EachAsked, OneAsked};
ghost use Rattle.rd_messages.specs.ShownRules.{ShownRulesArePut, ShownRulesAreRehearsed};

/// Law: the bytes of a visit ask for at most one thing: a request, or one reason why they are no
/// request.
pub fn one_asked()
    ensures { OneAsked }
{}

/// Law: there are no bytes that ask for nothing: whatever comes is a request, or there is a reason
/// why it is none. With `each_request_has_a_reply` of `rd_protocol`, no definition leaves bytes for
/// which status 503 is the only reply.
pub fn each_asked()
    ensures { EachAsked }
{}

/// Law: a rule as the desk shows it, with its rank taken off, sent back as a body to its place,
/// asks to put exactly that rule; and sent to a rehearsal at its place, it asks to rehearse exactly
/// that rule.
pub fn shown_rules_are_sent_back()
    ensures put { ShownRulesArePut }
    ensures rehearsed { ShownRulesAreRehearsed }
{}
