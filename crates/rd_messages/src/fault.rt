//! Why the bytes of a visit are no request.

ghost use Rattle.std.specs.Prelude.{◌≡◌, ◌≤◌, ◌++◌, codes, length};
ghost use Rattle.rd_messages.specs.Methods.{allow_text};

use crate::method::Methods;
use rd_protocol::{Reply, fixed_reply};

/// Why the bytes of a visit are no request. If several reasons hold, the reply gives the first in
/// this order.
#[derive(Clone, Copy)]
pub enum RequestFault {
    /// The first 8,192 bytes hold no head with at most 64 fields.
    BadHead,
    /// The head names a transfer coding, does not give the length of its body, or gives one above
    /// 262,144; the body is shorter; or there is more than one desk key.
    Framing,
    /// The desk has no such target.
    NoRoute,
    /// The target has other methods, namely these.
    Method(Methods),
}

/// The line of a reply's head that names methods.
fn allow(methods: Methods) -> &'static str
    ensures line { result.now ≡ codes "Allow: " ++ allow_text methods ++ codes "\r\n" }
    ensures short { length result.now ≤ 40 }
{
    match methods {
        Methods::Get => "Allow: GET\r\n",
        Methods::Post => "Allow: POST\r\n",
        Methods::Put => "Allow: PUT\r\n",
        Methods::PutOrDelete => "Allow: PUT, DELETE\r\n",
    }
}

impl RequestFault {
    ghost use Rattle.rd_messages.specs.Faults.{allow_line, fault_body, fault_reply, status_of};

    /// The status of the reply.
    fn status(self) -> u16
        ensures { result ≡ status_of self }
    {
        match self {
            RequestFault::BadHead | RequestFault::Framing => 400,
            RequestFault::NoRoute => 404,
            RequestFault::Method(_) => 405,
        }
    }

    /// The body of the reply: the name of the fault, in JSON.
    fn body(self) -> &'static str
        ensures { result.now ≡ fault_body self }
    {
        match self {
            RequestFault::BadHead => "{\"error\":\"bad-head\"}",
            RequestFault::Framing => "{\"error\":\"framing\"}",
            RequestFault::NoRoute => "{\"error\":\"no-route\"}",
            RequestFault::Method(_) => "{\"error\":\"method\"}",
        }
    }

    /// The reply. It takes no memory.
    pub fn reply(self) -> Reply
        ensures { result ≡ fault_reply self }
    {
        fixed_reply(self.status(), self.body())
    }

    /// The line of the reply's head that only this fault has; empty if it has none.
    pub fn line(self) -> &'static str
        ensures line { result.now ≡ allow_line self }
        ensures short { length result.now ≤ 40 }
    {
        match self {
            RequestFault::Method(methods) => allow(methods),
            RequestFault::BadHead | RequestFault::Framing | RequestFault::NoRoute => "",
        }
    }
}
