// The version.
ghost use Rattle.std.specs.Prelude.{◌≡◌};
ghost use Rattle.kerbcanopy.specs.Version.{version_number};

const MAJOR: u32 = 0;

const MINOR: u32 = 2;

const PATCH: u32 = 0;

// Which version the library is: its first number times 65,536, its second times 256 and its third, added up. It takes nothing and refuses nothing.
pub fn kc_version() -> u32
    ensures { result ≡ version_number }
{
    MAJOR * 65536 + MINOR * 256 + PATCH
}
