// The check word of bytes, and records that end with it: damage to one or two bytes is seen.
#![tactic(auto)]

ghost use Rattle.std.specs.Prelude.{◌≡◌};
ghost use Rattle.seal.specs.Seal.{check_word, is_sealed, resealed};

// Bytes of a check word.
pub const SIZE: usize = 4;

// 2^16
const MODULUS: u32 = 65_536;

// The sum of the bytes, and behind it the sum of their running sums, 16 bits each.
pub fn check_word(s: &[u8]) -> u32
    ensures { result ≡ check_word s.now }
{
    let mut sum: u32 = 0;
    let mut sums: u32 = 0;
    for &byte in s {
        sum = (sum + byte as u32) % MODULUS;
        sums = (sums + sum) % MODULUS;
    }
    sum * MODULUS + sums
}

// Whether the last four bytes are the check word of those before them.
pub fn is_sealed(s: &[u8]) -> bool
    ensures { result ≡ is_sealed s.now }
{
    if s.len() < SIZE {
        return false;
    }
    let n = s.len() - SIZE;
    let c = check_word(&s[..n]);
    bits::word(&s[n..]) == c as u64
}

// Puts the check word of the bytes before them over the last four; where there are fewer, leaves them as they are.
#[tactic(auto, using(crate::proofs::Seals::too_few))]
pub fn put_check_word(out: &mut [u8])
    ensures { out.new ≡ resealed out.old }
{
    if out.len() < SIZE {
        return;
    }
    let n = out.len() - SIZE;
    let c = check_word(&out[..n]);
    bits::put_word(&mut out[n..], c as u64);
}
