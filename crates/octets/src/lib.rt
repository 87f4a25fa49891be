// Rows of bytes: whether two are the same.
#![tactic(auto)]

ghost use Rattle.std.specs.Prelude.{◌≡◌};
ghost use Rattle.octets.specs.Same.{same_bytes};

// Whether two rows of bytes are the same.
pub fn same_bytes(x: &[u8], y: &[u8]) -> bool
    ensures { result ≡ same_bytes x.now y.now }
{
    x == y
}
