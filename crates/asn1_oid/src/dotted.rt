//! The dotted text of arcs, a few of them at a time.

ghost use Rattle.std.specs.Prelude.{◌≡◌, ◌+◌, ◌<◌, ◌≤◌, length, drop};
ghost use Rattle.asn1_oid.specs.Arcs.{with_stops};

use itoa::write_digits;
use std::str;

/// Returns the decimals of at most eight arcs, each after a full stop, at the end of the octets,
/// and where they begin. An arc has at most ten digits, so eight have room in 88 octets.
fn put_group(arcs: &[u32], room: &mut [u8; 88]) -> usize
    requires { length arcs.now ≤ 8 }
    ensures text { drop result room.new ≡ with_stops arcs.now }
    ensures within { result + length arcs.now ≤ 88 }
{
    let mut start = 88;
    for behind in 0..arcs.len() {
        let arc = arcs[arcs.len() - 1 - behind];
        start = write_digits(u64::from(arc), room, start) - 1;
        room[start] = b'.';
    }
    start
}

/// Returns the text of at least one and at most eight arcs, each after a full stop; `skipped`
/// leaves the first full stop out.
pub(crate) fn group_text<'a>(arcs: &[u32], skipped: usize, room: &'a mut [u8; 88]) -> &'a str
    requires some { 0 < length arcs.now }
    requires few { length arcs.now ≤ 8 }
    requires first { skipped ≤ 1 }
    ensures { result.now ≡ drop skipped (with_stops arcs.now) }
{
    let start = put_group(arcs, room) + skipped;
    let Ok(text) = str::from_utf8(&room[start..]) else {
        unreachable!()
    };
    text
}
