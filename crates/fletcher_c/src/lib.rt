// The checksum of an object, for C.
#![tactic(auto)]

ghost use Rattle.std.specs.Prelude.{◌≡◌};
ghost use Rattle.fletcher.specs.Fletcher.{verifies};

// Whether bytes 0 to 7 of an object hold its checksum.
#[unsafe(no_mangle)]
pub extern "C" fn fletcher_verify(object: &[u8]) -> bool
    ensures { result ≡ verifies object.now }
{
    fletcher::verify(object)
}
