// How many bits are one.
ghost use Rattle.std.specs.Prelude.{◌≡◌, ◌≤◌, length};
ghost use Rattle.std.specs.List.{count_by, range_with_len};
ghost use Rattle.vx_array_loops.specs.WordBits.{bit_of, count_true, first_bits, words_for};

/// How many of the first so many bits are one. What the words hold behind them is never looked at.
pub fn count_bits(words: &[u64], len: usize) -> usize
    requires { length words.now ≡ words_for len }
    ensures { result ≡ count_true (first_bits len words.now) }
{
    let whole = len / 64;
    let mut ones = 0;
    for j in 0..whole {
        ones += count_low(words[j], 64);
    }
    let rest = len % 64;
    if rest == 0 {
        return ones;
    }
    ones + count_low(words[whole], rest)
}

// How many of the first so many bits of the word are one. Asks from 1 to 64.
#[inline(always)]
fn count_low(word: u64, count: usize) -> usize
    requires few { count ≤ 64 }
    requires some { 1 ≤ count }
    ensures { result ≡ count_by (bit_of word) (range_with_len 0 count) }
{
    (word & (u64::MAX >> (64 - count))).count_ones() as usize
}
