// The version of the interface. Programs refer to the function of this name in `binmode_c`, which has the major version: compiled for one, they don't
// link to another. `link/binmode.h` says what a change of version means.
ghost use Rattle.std.specs.Prelude.{◌≡◌};

// The minor version.
pub fn binmode_version_2() -> u32
    ensures { result ≡ 1 }
{
    1
}
