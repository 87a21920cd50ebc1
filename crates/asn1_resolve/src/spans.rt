//! Spans of the text.

use asn1_definitions::{Place, Scope};
use asn1_notation::wide;
use asn1_schema_values::NameSpan;

/// Returns the span of the text of an entry.
pub fn span_of(scope: Scope<'_>, place: Place) -> NameSpan {
    let entry = scope.entry(place.index);
    NameSpan {
        from: wide(entry.from),
        count: wide(entry.count),
    }
}
