// The version.
ghost use Rattle.std.specs.Prelude.{◌≡◌};
ghost use Rattle.kerbcanopy.specs.Version.{version_number};

#[unsafe(no_mangle)]
pub extern "C" fn kc_version() -> u32
    ensures { result ≡ version_number }
{
    kerbcanopy::version::kc_version()
}
