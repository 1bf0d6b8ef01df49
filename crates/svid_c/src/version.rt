ghost use Rattle.std.specs.Prelude.{◌≡◌};

/// The version of the library: 10,000 times its major number, plus 100 times its minor one, plus its patch.
#[unsafe(no_mangle)]
pub extern "C" fn svid_version() -> u32
    ensures { result ≡ 30000 }
{
    30_000
}
