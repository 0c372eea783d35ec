//! Bits in words of 64.
ghost use Rattle.std.specs.Prelude.{◌≡◌, ◌<◌, ◌*◌, ◌&&◌, ◌||◌, ◌==◌, ℕ, length, not};
ghost use Rattle.fill_raster.specs.Bits as spec;

/// How many bits a word has.
pub(crate) const WORD: usize = 64;

/// Bit `k` of a list of words.
pub(crate) fn has_bit(words: &[u64], k: usize) -> bool
    requires { k < 64 * length words.now }
    ensures { result ≡ spec.has_bit words.now k }
{
    (words[k / WORD] >> (k % WORD)) & 1 == 1
}

/// Sets bit `k` of a list of words.
pub(crate) fn set_bit(words: &mut [u64], k: usize)
    requires { k < 64 * length words.old }
    ensures len { length words.new ≡ length words.old }
    ensures bits { (n : ℕ) → spec.has_bit words.new n ≡ spec.has_bit words.old n || (n == k) }
{
    words[k / WORD] |= 1 << (k % WORD);
}

/// Takes bit `k` off a list of words.
pub(crate) fn clear_bit(words: &mut [u64], k: usize)
    requires { k < 64 * length words.old }
    ensures len { length words.new ≡ length words.old }
    ensures bits { (n : ℕ) → spec.has_bit words.new n ≡ spec.has_bit words.old n && not (n == k) }
{
    words[k / WORD] &= !(1 << (k % WORD));
}
