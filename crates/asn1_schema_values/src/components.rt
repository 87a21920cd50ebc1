//! Components of a SEQUENCE or a SET, by their names.

ghost use Rattle.std.specs.Prelude.{◌≡◌, ◌+◌, ◌≤◌, ◌^◌, ℕ, Bool, MatchOption, slice_get, Some};
ghost use Rattle.asn1_schema.specs.declared.tables.Rows.{Rows};
ghost use Rattle.asn1_schema.specs.declared.part.Part.TheVariants.{Additions};
ghost use Rattle.asn1_schema_values.specs.declared.value.Value.{Value};
ghost use Rattle.asn1_schema_values.specs.Extents.{HasValues};
ghost use Rattle.asn1_schema_values.specs.Values.{IsPresent, IsMember, IsSequence, IsOfRoot, IsAddition, IsComponent};

use crate::extent::{after, end_of_values};
use crate::value::{Message, Value};
use asn1_schema::{Node, Part, Rows};

/// Returns the value of the member in a row, if one begins at a part.
fn present_at<'v>(message: &'v Message<'v>, row: usize, at: usize) -> Option<Value<'v>>
    ensures { MatchOption result ((v : Value) → IsPresent message.now row at v → ⊥)
        (λ v. IsPresent message.now row at v) }
{
    let member = message.tables.members.get(row)?;
    match message.parts.get(at)? {
        Part::Absent => None,
        _ => Some(Value {
            message,
            node: member.node,
            at,
        }),
    }
}

/// Returns the value of the first member with a name, if it has one. Those of `count` members of
/// the rows begin at part `from`.
fn member_value<'v>(
    message: &'v Message<'v>,
    rows: Rows,
    from: usize,
    count: usize,
    name: &str,
) -> Option<Value<'v>>
    ensures { MatchOption result ((v : Value) → IsMember message.now rows from count name.now v → ⊥)
        (λ v. IsMember message.now rows from count name.now v) }
{
    let row = message.names.member_named(rows, name)?;
    let place = row - rows.from;
    if place >= count {
        return None;
    }
    let at = end_of_values(message.parts, from, place)?;
    present_at(message, row, at)
}

/// Returns how many additions follow a part. `None` if the part does not say it.
fn additions_at(parts: &[Part], at: usize) -> Option<usize>
    ensures { MatchOption result ((added : ℕ) → slice_get parts.now at ≡ Some (Additions added) → ⊥)
        (λ added. slice_get parts.now at ≡ Some (Additions added)) }
{
    match *parts.get(at)? {
        Part::Additions(added) => Some(added),
        _ => None,
    }
}

/// What a value of a SEQUENCE has.
#[derive(Drop)]
struct Components {
    root: Rows,
    additions: Rows,
    count: usize,
    is_extended: bool,
}

impl<'v> Value<'v> {
    /// Returns the component with a name. `None` if the value is no SEQUENCE or SET, if it has no
    /// component with this name, or if the component is absent, as it is with its default value.
    ///
    /// It reads the parts of the components before it.
    ///
    /// # Examples
    ///
    /// ```
    /// use asn1_resolve::Schema;
    /// use asn1_schema::Part;
    /// use asn1_schema_values::{Message, Value};
    ///
    /// let text = "M DEFINITIONS ::= BEGIN Both ::= SEQUENCE { a BOOLEAN, b BOOLEAN } END";
    /// let schema = Schema::parse(rt.alloc(), text)?;
    /// let both = Part::Sequence {
    ///     count: 2,
    ///     is_extended: false,
    /// };
    /// let message = Message {
    ///     tables: schema.tables(),
    ///     names: schema.names(),
    ///     octets: &[],
    ///     parts: &[both, Part::Truth(false), Part::Truth(true)],
    /// };
    /// let value = Value::whole(&message, schema.node_named("Both").unwrap_or(0));
    /// assert!(rt; value.get("b").and_then(|it| it.as_bool()) == Some(true));
    /// assert!(rt; value.get("c").is_none());
    /// ```
    pub fn get(&self, name: &str) -> Option<Value<'v>>
        ensures { MatchOption result ((c : Value) → IsComponent self.now name.now c → ⊥)
            (λ c. IsComponent self.now name.now c) }
    {
        match self.root_component(name) {
            Some(component) => Some(component),
            None => self.addition(name),
        }
    }

    fn components(&self) -> Option<Components>
        ensures { MatchOption result ((root additions : Rows) (count : ℕ) (is_extended : Bool)
            → IsSequence self.now root additions count is_extended → ⊥)
            (λ s. IsSequence self.now s.root s.additions s.count s.is_extended) }
    {
        let message = self.message;
        let Node::Sequence {
            root,
            additions,
            ..
        } = *message.tables.nodes.get(self.node)?
        else {
            return None;
        };
        let Part::Sequence { count, is_extended } = *message.parts.get(self.at)? else {
            return None;
        };
        Some(Components {
            root,
            additions,
            count,
            is_extended,
        })
    }

    fn root_component(&self, name: &str) -> Option<Value<'v>>
        ensures { MatchOption result ((c : Value) → IsOfRoot self.now name.now c → ⊥)
            (λ c. IsOfRoot self.now name.now c) }
    {
        let it = self.components()?;
        let from = after(self.message.parts, self.at)?;
        member_value(self.message, it.root, from, it.count, name)
    }

    fn addition(&self, name: &str) -> Option<Value<'v>>
        ensures { MatchOption result ((c : Value) → IsAddition self.now name.now c → ⊥)
            (λ c. IsAddition self.now name.now c) }
    {
        let it = self.components()?;
        if !it.is_extended {
            return None;
        }
        let from = after(self.message.parts, self.at)?;
        let place = end_of_values(self.message.parts, from, it.count)?;
        let added = additions_at(self.message.parts, place)?;
        let first = after(self.message.parts, place)?;
        member_value(self.message, it.additions, first, added, name)
    }
}
