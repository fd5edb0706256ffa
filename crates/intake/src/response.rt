ghost use Rattle.std.specs.Prelude.{◌≡◌};
ghost use Rattle.definitions.specs.Response.{phrase, bare, not_allowed};
ghost use Rattle.intake.specs.Answers.{number, body_bytes, method_name, seen, fixed_text};

use http::StatusCode;

/// The statuses that are answered (RFC 9110).
#[derive(Clone, Copy, PartialEq, Eq)]
pub enum Status {
    /// 200
    Okay,
    /// 204
    NoContent,
    /// 400
    BadRequest,
    /// 403
    Forbidden,
    /// 404
    NotFound,
    /// 405
    MethodNotAllowed,
    /// 409
    Conflict,
    /// 411
    LengthRequired,
    /// 413
    PayloadTooLarge,
    /// 421
    MisdirectedRequest,
    /// 422
    UnprocessableEntity,
    /// 501
    NotImplemented,
    /// 503
    ServiceUnavailable,
}

impl Status {
    /// The code of three digits.
    pub fn code(self) -> StatusCode
        ensures { result ≡ number self }
    {
        match self {
            Status::Okay => StatusCode::OK,
            Status::NoContent => StatusCode::NO_CONTENT,
            Status::BadRequest => StatusCode::BAD_REQUEST,
            Status::Forbidden => StatusCode::FORBIDDEN,
            Status::NotFound => StatusCode::NOT_FOUND,
            Status::MethodNotAllowed => StatusCode::METHOD_NOT_ALLOWED,
            Status::Conflict => StatusCode::CONFLICT,
            Status::LengthRequired => StatusCode::LENGTH_REQUIRED,
            Status::PayloadTooLarge => StatusCode::PAYLOAD_TOO_LARGE,
            Status::MisdirectedRequest => StatusCode::MISDIRECTED_REQUEST,
            Status::UnprocessableEntity => StatusCode::UNPROCESSABLE_ENTITY,
            Status::NotImplemented => StatusCode::NOT_IMPLEMENTED,
            Status::ServiceUnavailable => StatusCode::SERVICE_UNAVAILABLE,
        }
    }

    /// The reason phrase beside the code.
    pub fn phrase(self) -> &'static str
        ensures { result.now ≡ phrase (number self) }
    {
        self.code().canonical_reason().unwrap_or("")
    }
}

/// The media type of a body.
#[derive(Clone, Copy, PartialEq, Eq)]
pub enum MediaType {
    /// `text/plain`
    Plain,
    /// `application/EDI-X12` (RFC 1767)
    Interchange,
    /// `text/html`, and the fields that go with a page
    Page,
}

/// The method that a path allows, told with 405.
#[derive(Clone, Copy, PartialEq, Eq)]
pub enum Allow {
    /// `GET`
    Get,
    /// `POST`
    Post,
}

/// The bytes of a body.
#[derive(Drop)]
pub enum Body {
    /// A text that takes no memory.
    Fixed(&'static [u8]),
    /// Bytes of its own.
    Owned(Vec<u8>),
}

impl Body {
    /// The bytes.
    pub fn bytes(&self) -> &[u8]
        ensures { result.now ≡ body_bytes self.now }
    {
        match self {
            Body::Fixed(bytes) => bytes,
            Body::Owned(bytes) => bytes.as_slice(),
        }
    }
}

/// A response to a request.
#[derive(Drop)]
pub struct Response {
    /// Its status.
    pub status: Status,
    /// The type of the body, where there is one.
    pub kind: Option<MediaType>,
    /// What is allowed, of a 405.
    pub allow: Option<Allow>,
    /// The body, nothing of a 204.
    pub body: Body,
}

// The text of a status and its phrase.
fn status_line(status: Status) -> &'static [u8]
    ensures { result.now ≡ fixed_text status }
{
    match status {
        Status::Okay => b"200 OK\n",
        Status::NoContent => b"204 No Content\n",
        Status::BadRequest => b"400 Bad Request\n",
        Status::Forbidden => b"403 Forbidden\n",
        Status::NotFound => b"404 Not Found\n",
        Status::MethodNotAllowed => b"405 Method Not Allowed\n",
        Status::Conflict => b"409 Conflict\n",
        Status::LengthRequired => b"411 Length Required\n",
        Status::PayloadTooLarge => b"413 Payload Too Large\n",
        Status::MisdirectedRequest => b"421 Misdirected Request\n",
        Status::UnprocessableEntity => b"422 Unprocessable Entity\n",
        Status::NotImplemented => b"501 Not Implemented\n",
        Status::ServiceUnavailable => b"503 Service Unavailable\n",
    }
}

/// The response whose body is its status and phrase. It takes no memory.
pub(crate) fn bare_response(status: Status) -> Response
    ensures { seen result ≡ bare (number status) }
{
    Response {
        status,
        kind: Some(MediaType::Plain),
        allow: None,
        body: Body::Fixed(status_line(status)),
    }
}

/// The response to another method than the one that a path allows. It takes no memory.
pub(crate) fn not_allowed_response(allow: Allow) -> Response
    ensures { seen result ≡ not_allowed (method_name allow) }
{
    Response {
        status: Status::MethodNotAllowed,
        kind: Some(MediaType::Plain),
        allow: Some(allow),
        body: Body::Fixed(status_line(Status::MethodNotAllowed)),
    }
}
