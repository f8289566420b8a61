//! The fields of a head, found by their names.
ghost use Rattle.std.specs.Prelude.{◌≡◌, ◌↔◌, ◌+◌, ◌<◌, ◌≤◌, ◌∷◌, ◌++◌, [], ℕ, List, Option, Some, None, length, take, drop, map, option_map, option_and_then, slice_range, All, IsTrue};
ghost use Rattle.httparse.specs.Spans.{span_bytes, header_bytes, IsWithin, IsHeaderWithin};
ghost use Rattle.http_range.specs.Fields.{FieldsAre};
ghost use Rattle.http_range.specs.Replies.{same_name, values_of, only};

use httparse::spans::{HeaderSpan, Span};

/// The fields of one name.
#[derive(Clone, Copy, Debug, PartialEq, Eq)]
pub enum Fields {
    Absent,
    One(Span),
    More,
}

/// The fields of that name among the headers of `bytes`.
pub fn fields_of(bytes: &[u8], headers: &[HeaderSpan], name: &[u8]) -> Fields
    requires { All (IsHeaderWithin (length bytes.now)) headers.now }
    ensures { FieldsAre (values_of name.now (map (header_bytes bytes.now) headers.now)) bytes.now result }
{
    let mut found = Fields::Absent;
    for at in 0..headers.len() {
        let header = headers[at];
        if is_named(bytes, header.name, name) {
            found = one_more(found, header.value);
        }
    }
    found
}

// What is found with one value more.
fn one_more(found: Fields, value: Span) -> Fields
    ensures { (bytes : List ℕ) (values : List (List ℕ)) → FieldsAre values bytes found → IsWithin (length bytes) value
        → FieldsAre (values ++ span_bytes bytes value ∷ []) bytes result }
{
    match found {
        Fields::Absent => Fields::One(value),
        Fields::One(_) | Fields::More => Fields::More,
    }
}

fn is_named(bytes: &[u8], span: Span, name: &[u8]) -> bool
    requires { IsWithin (length bytes.now) span }
    ensures { result ≡ same_name (span_bytes bytes.now span) name.now }
{
    span.of(bytes).eq_ignore_ascii_case(name)
}

/// The value of the one field of that name.
pub fn only_value<'a>(bytes: &'a [u8], headers: &[HeaderSpan], name: &[u8]) -> Option<&'a [u8]>
    requires { All (IsHeaderWithin (length bytes.now)) headers.now }
    ensures { option_map (λ value. value.now) result
        ≡ only (values_of name.now (map (header_bytes bytes.now) headers.now)) }
{
    match fields_of(bytes, headers, name) {
        Fields::One(span) => Some(span.of(bytes)),
        Fields::Absent | Fields::More => None,
    }
}

/// Whether there is a field of that name.
pub fn has_field(bytes: &[u8], headers: &[HeaderSpan], name: &[u8]) -> bool
    requires { All (IsHeaderWithin (length bytes.now)) headers.now }
    ensures { IsTrue result ↔ (0 < length (values_of name.now (map (header_bytes bytes.now) headers.now))) }
{
    match fields_of(bytes, headers, name) {
        Fields::Absent => false,
        Fields::One(_) | Fields::More => true,
    }
}
