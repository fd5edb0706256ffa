//! Why a request is turned away.

/// Why a request isn't answered.
#[derive(Clone, Copy, PartialEq, Eq)]
pub enum Barred {
    /// A field that decides is there twice (400): no two readers would agree on its value.
    BadRequest,
    /// Its Host isn't a name of this server (421; RFC 9110, 7.2 and 15.5.20): a name of somebody
    /// else was made to lead here, or the server wasn't told this name.
    Misdirected,
    /// A browser sends it for a page of another origin, or it may be a form of one (403; RFC 6454
    /// and Fetch Metadata).
    Forbidden,
}
