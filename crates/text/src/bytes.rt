ghost use Rattle.text.specs.Bytes.{same_bytes};
ghost use Rattle.std.specs.Prelude.{◌≡◌};

// Whether two slices hold the same bytes.
pub fn same(a: &[u8], b: &[u8]) -> bool
    ensures { result ≡ same_bytes a.now b.now }
{
    a == b
}
