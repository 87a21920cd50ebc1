//! The laws of shortest octets.
ghost use Rattle.asn1_number.specs.StatedLaws.{EachNumberHasOneShortestList, ComputedAreShortest};
ghost use Rattle.asn1_number.specs.StatedLaws.{ShortestByNineBits, ShortestKeepOrder, ShortestAreReadBack};

/// Proves the laws of shortest octets at every length (X.690 8.3.2), for callers that examine
/// octets themselves. Its contract is the laws; it does nothing when it runs.
pub fn laws_of_shortest_octets()
    ensures one_list { EachNumberHasOneShortestList }
    ensures computed { ComputedAreShortest }
    ensures nine_bits { ShortestByNineBits }
    ensures order { ShortestKeepOrder }
    ensures read_back { ShortestAreReadBack }
{}
