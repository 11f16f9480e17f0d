//! The version of the library.

ghost use Rattle.std.specs.Prelude.{◌≡◌};
ghost use Rattle.dom_c.specs.Version.{version_number};

use crate::status::HP_OK;

// 1000000 for each major version, 1000 for each minor one.
const NUMBER: u32 = 1000;

/// Returns the version of the running library, as a number. A program compares it with `HP_VERSION_NUMBER`, that of the header it was compiled with.
#[unsafe(no_mangle)]
pub extern "C" fn hp_version(version: &mut u32) -> u8
    ensures number { version.new ≡ version_number }
    ensures status { result ≡ 0 }
{
    *version = NUMBER;
    HP_OK
}
