ghost use Rattle.std.specs.Prelude.{◌≡◌, length, map, All};
ghost use Rattle.httparse.specs.Spans.{IsHeaderWithin, header_bytes};
ghost use Rattle.head_fields.specs.Fields.{is_named, has_field, values, IsValues};

use httparse::spans::HeaderSpan;

/// The values of the fields of a name.
#[derive(Clone, Copy)]
pub enum Values<'b> {
    /// There is no such field.
    Absent,
    /// There is one.
    Single(&'b [u8]),
    /// There are more.
    Several,
}

// Whether a field has this name, in letters of either case.
fn has_name(buf: &[u8], field: HeaderSpan, name: &[u8]) -> bool
    requires { IsHeaderWithin (length buf.now) field }

    ensures { result ≡ is_named name.now (header_bytes buf.now field) }
{
    field.name.of(buf).eq_ignore_ascii_case(name)
}

/// Whether one of a head's fields has this name, in letters of either case.
pub fn is_among(buf: &[u8], fields: &[HeaderSpan], name: &[u8]) -> bool
    requires { All (IsHeaderWithin (length buf.now)) fields.now }

    ensures { result ≡ has_field name.now (map (header_bytes buf.now) fields.now) }
{
    for field in fields {
        if has_name(buf, *field, name) {
            return true;
        }
    }
    false
}

/// The values of a head's fields that have this name, in letters of either case.
pub fn values_of<'b>(buf: &'b [u8], fields: &[HeaderSpan], name: &[u8]) -> Values<'b>
    requires { All (IsHeaderWithin (length buf.now)) fields.now }

    ensures { IsValues result (values name.now (map (header_bytes buf.now) fields.now)) }
{
    let mut found = None;
    for field in fields {
        if has_name(buf, *field, name) {
            if found.is_some() {
                return Values::Several;
            }
            found = Some(field.value.of(buf));
        }
    }
    match found {
        None => Values::Absent,
        Some(value) => Values::Single(value),
    }
}
