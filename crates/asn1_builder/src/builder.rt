//! Values that are being built.

ghost use Rattle.std.specs.Prelude.{◌<◌, ◌^◌, vec_len};

use crate::error::BuildError;
use crate::frame::Frame;
use asn1_schema::{Part, Tables};
use asn1_schema_values::{Names, end_of, laws_of_extents};
use std::alloc::Global;

/// A value, in the form that an encoder takes.
#[derive(Debug, Drop)]
pub struct Built {
    /// Its parts.
    pub parts: Vec<Part>,
    /// The octets in which the parts have their bits.
    pub octets: Vec<u8>,
}

/// A value that is being built, of a type of some tables: its parts, in the order of the type's
/// text.
///
/// A call that returns an error changes nothing. The builder does not check the constraints of the
/// type; an encoder does.
///
/// # Examples
///
/// ```
/// use asn1_builder::Builder;
/// use asn1_resolve::Schema;
/// use asn1_schema::Part;
///
/// let text = "M DEFINITIONS ::= BEGIN Both ::= SEQUENCE { a BOOLEAN, b BOOLEAN } END";
/// let schema = Schema::parse(rt.alloc(), text)?;
/// let node = schema.node_named("Both").unwrap_or(0);
/// let mut builder = Builder::new(rt.alloc(), schema.tables(), schema.names(), node);
/// builder.begin()?;
/// builder.component("a")?;
/// builder.boolean(true)?;
/// builder.component("b")?;
/// builder.boolean(false)?;
/// builder.end()?;
/// let built = builder.finish()?;
/// assert!(rt; built.parts.get(1) == Some(&Part::Truth(true)));
/// ```
#[derive(Drop)]
pub struct Builder<'s> {
    pub(crate) alloc: Global,
    pub(crate) tables: Tables<'s>,
    pub(crate) names: Names<'s>,
    pub(crate) parts: Vec<Part>,
    pub(crate) octets: Vec<u8>,
    pub(crate) frames: Vec<Frame>,
    /// The type of the value that comes next, if one may.
    pub(crate) next: Option<usize>,
    ghost small: { vec_len octets < 2 ^ 61 },
}

impl<'s> Builder<'s> {
    ghost use Rattle.std.specs.Prelude.{◌≡◌, ◌*◌, ◌-◌, ◌⊎◌, ℕ, length, [], Some, MatchResult, IfOk, ⊤};
    ghost use Rattle.asn1_schema_values.specs.Extents.{AreValues};
    ghost use Rattle.asn1_builder.specs.declared.error.BuildError.TheVariants.{Unfinished};
    ghost use Rattle.asn1_builder.specs.Drafts.{draft_of, Draft};

    /// Returns a builder of a value of the type at a node, without parts.
    pub fn new(alloc: Global, tables: Tables<'s>, names: Names<'s>, node: usize) -> Builder<'s>
        ensures { draft_of result ≡ record {
          tables = tables.entry;
          names = names.entry;
          parts = [];
          octets = [];
          frames = [];
          next = Some node;
        } }
    {
        Builder {
            alloc,
            tables,
            names,
            parts: Vec::new(alloc),
            octets: Vec::new(alloc),
            frames: Vec::new(alloc),
            next: Some(node),
        }
    }

    /// Returns the value if it is complete. It reads the parts once.
    ///
    /// # Errors
    ///
    /// Returns [`BuildError::Unfinished`] if a value was begun that is not ended, or if the parts
    /// are not one whole value.
    pub fn finish(self) -> Result<Built, BuildError>
        ensures value { MatchResult result (λ v. (v.parts.items ≡ (draft_of self.entry).parts)
            × (v.octets.items ≡ (draft_of self.entry).octets) × ((draft_of self.entry).frames ≡ [])
            × AreValues 1 v.parts.items)
            (λ e. (e ≡ Unfinished)
            × (((draft_of self.entry).frames ≡ []) → AreValues 1 (draft_of self.entry).parts → ⊥)) }
        ensures small { IfOk result (λ v. (8 * length v.octets.items < 2 ^ 64)
            × (length v.parts.items < 2 ^ 64 - 1)) }
    {
        if !self.frames.is_empty() {
            return Err(BuildError::Unfinished);
        }
        let all = self.parts.as_slice();
        let Some(end) = end_of(all, 0) else {
            return Err(BuildError::Unfinished);
        };
        if end != all.len() {
            // A value ends at one index alone.
            laws_of_extents(all);
            return Err(BuildError::Unfinished);
        }
        let Builder { parts, octets, .. } = self;
        Ok(Built { parts, octets })
    }
}
