//! The version of the library.
ghost use Rattle.std.specs.Prelude.{◌≡◌, ◌+◌, ◌*◌};

/// Counts changes after which a caller may have to change: a removed name, a changed meaning, a changed layout.
pub const VERSION_MAJOR: u32 = 2;

/// Counts additions: a new call, status, kind or flag. It starts again at 0 after each change of the major number.
pub const VERSION_MINOR: u32 = 1;

/// Counts corrections. It starts again at 0 after each change of the minor number.
pub const VERSION_PATCH: u32 = 0;

/// Returns the version of the library as one number: the major number times 1,000,000, plus the minor number times
/// 1,000, plus the patch number.
#[unsafe(no_mangle)]
pub extern "C" fn fancy_version() -> u32
    ensures { result ≡ 1000000 * VERSION_MAJOR + 1000 * VERSION_MINOR + VERSION_PATCH }
{
    VERSION_MAJOR * 1_000_000 + VERSION_MINOR * 1_000 + VERSION_PATCH
}
