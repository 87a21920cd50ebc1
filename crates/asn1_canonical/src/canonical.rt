//! The canonical order.

ghost use Rattle.std.specs.Prelude.{◌≡◌, IfOk, OnErr};
ghost use Rattle.asn1_canonical.specs.Arranged.{IsArranged};

use crate::arrange::arrange;
use crate::context::Context;
use crate::work::order_of;
use asn1_schema::Part;
use std::alloc::{AllocError, Global};

/// Puts the items of each SET OF of a value of the type at a node in ascending order of their encodings, at
/// any depth. Returns the index that each part had.
///
/// An encoder then accepts them. Parts after the value are unchanged. If the parts are no value of the type, or
/// an item is nested `depth` levels or deeper, some SET OFs may have another order: items that have no encoding
/// are after the others. A default value that is present is compared as it is, so remove default values first.
///
/// # Errors
///
/// Returns an error if out of memory. The parts are unchanged then.
///
/// # Examples
///
/// ```
/// use asn1_canonical::{Context, Rules, canonical_order};
/// use asn1_resolve::Schema;
/// use asn1_schema::Part;
///
/// let text = "M DEFINITIONS ::= BEGIN Numbers ::= SET OF INTEGER END";
/// let schema = Schema::parse(rt.alloc(), text)?;
/// let context = Context {
///     tables: schema.tables(),
///     tags: schema.tag_tables(),
///     rules: Rules::Der,
///     source: &[],
/// };
/// let node = schema.node_named("Numbers").unwrap_or(0);
/// let mut parts = [Part::Count(2), Part::Integer(7), Part::Integer(5)];
/// let order = canonical_order(rt.alloc(), &context, 10, node, &mut parts)?;
/// assert!(rt; parts[1] == Part::Integer(5));
/// assert!(rt; order.as_slice() == [0, 2, 1].as_slice());
/// ```
pub fn canonical_order(
    alloc: Global,
    context: &Context<'_>,
    depth: usize,
    node: usize,
    parts: &mut [Part],
) -> Result<Vec<usize>, AllocError>
    ensures arranged { IfOk result (λ indexes. IsArranged parts.old parts.new indexes.items) }
    ensures unchanged { OnErr result (parts.new ≡ parts.old) }
{
    let order = order_of(alloc, context, depth, node, parts)?;
    arrange(alloc, parts, order.as_slice())
}
