// A recorded file as words of eight bytes, the least byte first, and the floats whose bits they are.
ghost use Rattle.std.specs.Prelude.{◌≡◌, ◌+◌, ◌-◌, ◌*◌, ◌≤◌, ◌↔◌, ◌++◌, length, map, take, IfOk, IsTrue};
ghost use Rattle.std.specs.Float.{binary64};
ghost use Rattle.std.specs.Float.Ieee.{nan_bits};
ghost use Rattle.arrayvec.specs.ArrayVec.{array_vec_len};
ghost use Rattle.float_words.specs.Words.{words_of, float_of, alike};

use arrayvec::ArrayVec;
use std::alloc::{AllocError, Global};

// The bit of a float's sign, and the least of the eleven bits of its exponent.
const SIGN: u64 = 1 << 63;

const EXPONENT: u64 = 1 << 52;

// All whole words of a file, in its order, however many they are.
pub fn words_of(alloc: Global, bytes: &[u8]) -> Result<Vec<u64>, AllocError>
    ensures { IfOk result (λ words. words.items ≡ words_of bytes.now) }
{
    let (words, _rest) = bytes.as_chunks();
    words
        .iter()
        .map(|word| u64::from_le_bytes(*word))
        .collect(alloc)
}

// Puts the whole words of a file behind those that are there, in its order, as many as there is room for.
pub fn push_words<const N: usize>(words: &mut ArrayVec<u64, N>, bytes: &[u8])
    ensures first { words.new.items ≡ words.old.items ++ take (N - array_vec_len words.old) (words_of bytes.now) }
    ensures all { 8 * array_vec_len words.old + length bytes.now ≤ 8 * N → words.new.items ≡ words.old.items ++ words_of bytes.now }
{
    let (chunks, _rest) = bytes.as_chunks();
    for word in chunks.iter().take(words.remaining_capacity()) {
        words.push(u64::from_le_bytes(*word));
    }
}

// The patterns of a NaN: all bits of the exponent are set, and not all below them are clear.
fn nan_pattern(word: u64) -> bool
    ensures { result ≡ nan_bits binary64 word }
{
    word % SIGN / EXPONENT == 2047 && word % EXPONENT != 0
}

// The float of a word's bits. All patterns of a NaN are one NaN.
pub fn float_of(word: u64) -> f64
    ensures { result ≡ float_of word }
{
    if nan_pattern(word) {
        f64::NAN
    } else {
        f64::from_bits(word)
    }
}

// The floats of words, in their order.
pub fn floats_of<const N: usize>(words: &[u64]) -> ArrayVec<f64, N>
    requires { length words.now ≤ N }
    ensures { result.items ≡ map float_of words.now }
{
    let mut floats = ArrayVec::new();
    for word in words {
        floats.push(float_of(*word));
    }
    floats
}

// Both are NaN, or both have the same bits.
#[tactic(auto, unfolding(crate::specs::Words::alike))]
pub fn same(a: f64, b: f64) -> bool
    ensures value { result ≡ alike a b }
    ensures exact { IsTrue result ↔ (a ≡ b) }
{
    if a.is_nan() {
        b.is_nan()
    } else {
        !b.is_nan() && a.to_bits() == b.to_bits()
    }
}

#[cfg(test)]
mod tests {
    use super::*;
    use std::test::Fail;

    #[test]
    fn words_of_a_file(rt: HostRuntime) -> Result<(), Fail> {
        let bytes = [
            0x01, 0x23, 0x45, 0x67, 0x89, 0xab, 0xcd, 0xef, 0, 0, 0, 0, 0, 0, 0xf0, 0x3f, 0xff,
        ];
        let words = words_of(rt.alloc(), &bytes)?;
        assert_eq!(rt;
            words.as_slice(),
            [0xefcd_ab89_6745_2301, 0x3ff0_0000_0000_0000].as_slice()
        );
        let none = words_of(rt.alloc(), &bytes[..7])?;
        assert!(rt; none.is_empty());
        // As long as the longest file that `float_run` reads.
        let words = words_of(rt.alloc(), &[0x5a; 131072])?;
        assert_eq!(rt; words.len(), 16384);
        assert!(rt; words.iter().all(|word| *word == 0x5a5a_5a5a_5a5a_5a5a));
        Ok(())
    }
}
