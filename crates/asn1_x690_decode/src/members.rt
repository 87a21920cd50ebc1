//! Members of the tables.

ghost use Rattle.std.specs.Prelude.{◌≡◌, ◌+◌, slice_get, Some, None, MatchOption};
ghost use Rattle.asn1_x690_decode.specs.Members.{is_required as is_required_by};

use asn1_schema::{Member, Presence};
use asn1_x690::FirstTags;

/// Returns the member at `from + index`.
#[inline(always)]
pub(crate) fn member_at(members: &[Member], from: usize, index: usize) -> Option<&Member>
    ensures { MatchOption result (None ≡ slice_get members.now (from + index)) (λ m. Some m.now ≡ slice_get members.now (from + index)) }
{
    if from < members.len() && index < members.len() - from {
        Some(&members[from + index])
    } else {
        None
    }
}

/// Returns the first tags of the member at `from + index`.
#[inline(always)]
pub(crate) fn first_at(members: &[FirstTags], from: usize, index: usize) -> Option<&FirstTags>
    ensures { MatchOption result (None ≡ slice_get members.now (from + index)) (λ f. Some f.now ≡ slice_get members.now (from + index)) }
{
    if from < members.len() && index < members.len() - from {
        Some(&members[from + index])
    } else {
        None
    }
}

/// Returns whether a component must be present.
#[inline(always)]
pub(crate) fn is_required(presence: Presence) -> bool
    ensures { result ≡ is_required_by presence }
{
    match presence {
        Presence::Mandatory => true,
        Presence::Optional => false,
        Presence::Default { value: _ } => false,
    }
}
