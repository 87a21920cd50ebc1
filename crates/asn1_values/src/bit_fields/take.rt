//! Takes the bits of a field from a reader.

ghost use Rattle.asn1_values.specs.Steps.{Cuts};

use super::error::ReadError;
use asn1_bits::BitReader;

/// Takes the next `need` bits, if as many are left.
pub(super) fn take_bits<'a>(
    reader: &mut BitReader<'a>,
    need: u128,
    field: usize,
) -> Result<BitReader<'a>, ReadError>
    ensures { Cuts need field reader.old reader.new result }
{
    let view = reader.bits();
    let left = view.len() as u128;
    if left < need {
        return Err(ReadError::Short {
            field,
            bits: need - left,
        });
    }
    let (front, rest) = view.split_at(need as usize);
    *reader = BitReader::new(rest);
    Ok(BitReader::new(front))
}

/// Does what `take_bits` does, for a width that the compiler knows to be short.
pub(super) fn take_few<'a>(
    reader: &mut BitReader<'a>,
    width: usize,
    field: usize,
) -> Result<BitReader<'a>, ReadError>
    ensures { Cuts width field reader.old reader.new result }
{
    reader.split(width).map_err(|bits| ReadError::Short {
        field,
        bits: bits as u128,
    })
}
