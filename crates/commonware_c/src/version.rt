//! Which version of these functions a program is linked with.
ghost use Rattle.std.specs.Prelude.{◌≡◌};
ghost use Rattle.commonware_c.specs.Version.{version_number};

/// The version of the library, 1000000 * major + 1000 * minor + patch. A program compares the major
/// versions, once, before it calls anything else:
///
/// ```c
/// if (commonware_version() / 1000000 != COMMONWARE_VERSION_MAJOR) {
///     return 1; // it was compiled for another library
/// }
/// ```
#[unsafe(no_mangle)]
pub extern "C" fn commonware_version() -> u32
    ensures version { result ≡ version_number 2 0 0 }
{
    2_000_000
}
