//! Lists of bits: views of octets, buffers that grow, readers, and the kernels below them.
//!
//! A bit is a Boolean, and octets hold their bits most significant first (X.690 8.1.3, X.691
//! 11). Contracts model every type as a list of bits. A call that fails because it is out of memory
//! changes nothing.
//!
//! # Examples
//!
//! ```
//! use asn1_bits::{BitBuffer, BitReader, BitStr};
//!
//! let octets = [0b0101_1000];
//! let mut buffer = BitBuffer::new(rt.alloc());
//! buffer.push_bits(200, 8)?;
//! buffer.extend_from_bitslice(BitStr::from_octets(&octets).slice(1, 4))?;
//! assert!(rt; buffer.as_bytes() == [200, 0b1011_0000].as_slice());
//! assert!(rt; BitReader::new(buffer.as_bitstr()).len() == 12);
//! ```
#![tactic(auto)]

mod bit_appender;
mod bit_buffer;
mod bit_reader;
mod bit_str;
mod bit_string;
mod buffer_target;
mod clear;
mod fixed_bit_string;
mod kernels;
mod octets;
mod overwrite;
mod places;
mod reads;
mod single_bits;
mod target;
mod turns;
mod window;

pub use bit_appender::BitAppender;
pub use bit_buffer::BitBuffer;
pub use bit_reader::BitReader;
pub use bit_str::BitStr;
pub use bit_string::{BitString, extend_bitstring, to_bitstring};
pub use fixed_bit_string::FixedBitString;
pub use kernels::{
    aligned_octets, extend_vec_from_bitslice, or_bits, range_from_len, read_bits, read_u128,
    read_wide, write_bitslice,
};
pub use octets::Octets;
pub use overwrite::{overwrite_bitslice, overwrite_number};
pub use places::{Places, place_bits};
pub use turns::Turns;
