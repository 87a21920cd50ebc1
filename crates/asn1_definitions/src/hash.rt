//! The hash of names.

/// The number of lists of definitions and imports.
pub const LISTS: usize = 1024;

/// Returns the FNV-1a hash of a name.
pub fn hash_of(name: &[u8]) -> u64 {
    let mut hash = 0xCBF2_9CE4_8422_2325_u64;
    for octet in name {
        hash = (hash ^ u64::from(*octet)).wrapping_mul(0x0100_0000_01B3);
    }
    hash
}

/// Returns the index of the list of a name.
pub fn list_of(name: &[u8]) -> usize {
    let hash = hash_of(name);
    usize::from((hash & 0x3FF) as u16)
}
