// Words in lent slices of bytes: eight bytes from a place on, the lowest first.
ghost use Rattle.std.specs.Prelude.{◌≡◌, ◌++◌, length, take, drop};
ghost use Rattle.bits.specs.Bytes.{EightOf};

// The eight bytes from `at` on as a word, the lowest first. 0 where they do not lie within s.
pub fn eight(s: &[u8], at: usize) -> u64
    ensures { EightOf s.now at result }
{
    if s.len() < 8 || s.len() - 8 < at {
        return 0;
    }
    let word = s[at..].first_chunk::<8>().unwrap();
    u64::from_le_bytes(*word)
}

// As many bytes of `from` as `to` has room for go to its start. The others stay.
pub fn copy(from: &[u8], to: &mut [u8])
    ensures { to.new ≡ take (length to.old) from.now ++ drop (length from.now) to.old }
{
    let k = from.len().min(to.len());
    to[..k].copy_from_slice(&from[..k]);
}
