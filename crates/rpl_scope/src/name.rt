//! Compares two names.
ghost use Rattle.std.specs.Prelude.{◌≡◌, bytes_eq};

/// Returns whether two names are the same.
pub fn is_same_name(a: &[u8], b: &[u8]) -> bool
    ensures { result ≡ bytes_eq a.now b.now }
{
    a == b
}
