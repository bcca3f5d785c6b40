// The version of the interface. Programs refer to this function, whose name has the major version: compiled for one, they don't link to another.
// `link/binmode.h` says what a change of version means.
ghost use Rattle.std.specs.Prelude.{◌≡◌};

// The minor version.
#[unsafe(no_mangle)]
pub extern "C" fn binmode_version_2() -> u32
    ensures { result ≡ 1 }
{
    binmode::version::binmode_version_2()
}
