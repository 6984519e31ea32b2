//! The methods of HTTP that desk takes.

ghost use Rattle.std.specs.Prelude.{◌≡◌};

/// A method of HTTP that some request has.
#[derive(Clone, Copy)]
pub(crate) enum Method {
    /// `GET`.
    Get,
    /// `POST`.
    Post,
    /// `PUT`.
    Put,
    /// `DELETE`.
    Delete,
}

/// The methods that a path takes.
#[derive(Clone, Copy)]
pub enum Methods {
    /// `GET` alone.
    Get,
    /// `POST` alone.
    Post,
    /// `PUT` alone.
    Put,
    /// `PUT` and `DELETE`.
    PutOrDelete,
}

impl Method {
    ghost use Rattle.rd_messages.specs.Methods.{name_of};

    /// The name of the method.
    fn name(self) -> &'static str
        ensures { result.now ≡ name_of self }
    {
        match self {
            Method::Get => "GET",
            Method::Post => "POST",
            Method::Put => "PUT",
            Method::Delete => "DELETE",
        }
    }
}

impl Methods {
    ghost use Rattle.rd_messages.specs.Methods.{each_of, method_named};

    /// The methods, one by one.
    fn each(self) -> &'static [Method]
        ensures { result.now ≡ each_of self }
    {
        match self {
            Methods::Get => &[Method::Get],
            Methods::Post => &[Method::Post],
            Methods::Put => &[Method::Put],
            Methods::PutOrDelete => &[Method::Put, Method::Delete],
        }
    }

    /// Which of the methods has this name, byte for byte; `None` if none of them has it.
    pub(crate) fn named(self, name: &[u8]) -> Option<Method>
        ensures { result ≡ method_named self name.now }
    {
        self.each()
            .iter()
            .copied()
            .find(|method| method.name().as_bytes() == name)
    }
}
