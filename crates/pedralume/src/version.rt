// The version that a program runs with. The header's macros have the one that it was built with.
ghost use Rattle.std.specs.Prelude.{◌≡◌};
ghost use Rattle.pedralume.specs.Version.{version};

const MAJOR: u64 = 1;

const MINOR: u64 = 3;

const PATCH: u64 = 0;

// The version as one number.
#[unsafe(no_mangle)]
pub extern "C" fn pedralume_version() -> u64
    ensures { result ≡ version }
{
    10000 * MAJOR + 100 * MINOR + PATCH
}
