//! The methods of the routes.
ghost use Rattle.std.specs.Prelude.{◌≡◌};
ghost use Rattle.fr_http.specs.Routes.{text_of_method};

/// The method of a route.
#[derive(Clone, Copy, PartialEq, Eq)]
pub enum Method {
    /// The request only reads, and has no body.
    Get,
    /// The request has a body.
    Post,
    /// The request has a body, which takes the place of what was there.
    Put,
}

impl Method {
    /// The method as a request spells it.
    pub fn as_str(self) -> &'static str
        ensures { result.now ≡ text_of_method self }
    {
        match self {
            Method::Get => "GET",
            Method::Post => "POST",
            Method::Put => "PUT",
        }
    }
}

/// The methods that a path allows.
#[derive(Clone, Copy, PartialEq, Eq)]
pub enum Allowed {
    /// This one alone.
    Only(Method),
    /// One of these two.
    Either(Method, Method),
}
