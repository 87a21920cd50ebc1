//! The laws of contents.
ghost use Rattle.asn1_oid.specs.Contents.{EachHasOneContents, ContentsAreOfOneList};

/// Proves the laws of contents (X.690 8.19), for callers that compare octets instead of arcs. Its
/// contract is the laws; it does nothing when it runs.
pub fn laws_of_contents()
    ensures one_contents { EachHasOneContents }
    ensures one_list { ContentsAreOfOneList }
{}
