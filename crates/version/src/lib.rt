// The version of the library.
#![tactic(auto)]

ghost use Rattle.std.specs.Prelude.{◌≡◌};
ghost use Rattle.version.specs.Version.{version};

// 20200 for 2.2.0.
const VERSION: u64 = 20200;

// Which version the library is.
pub fn library_version() -> u64
    ensures { result ≡ version }
{
    VERSION
}
