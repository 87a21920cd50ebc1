//! The version of the library.

ghost use Rattle.std.specs.Prelude.{◌≡◌};

/// The version 0.3.0.
const VERSION: u32 = 300;

/// Returns the version: 10,000 times the major number, 100 times the minor one, and the patch.
#[unsafe(no_mangle)]
pub extern "C" fn asn1v_version() -> u32
    ensures { result ≡ 300 }
{
    VERSION
}
