// Big-endian numbers in bytes.
#![tactic(auto)]

ghost use Rattle.std.specs.Prelude.{◌≡◌, ◌+◌, ◌^◌, ◌<◌, ◌≤◌, length};
ghost use Rattle.kinds.specs.Bytes.{part};
ghost use Rattle.numbers.specs.Numbers.{number, in_bytes, complement, signed};

// The unsigned number in the N bytes at a place: they are the last bytes of a word of which the others are zero.
pub fn unsigned<const N: usize>(bytes: &[u8], at: usize) -> u32
    requires { (at + N ≤ length bytes.now) × (N ≤ 4) }
    ensures value { result ≡ number (part at N bytes.now) }
    ensures upper_bound { result < 256 ^ N }
{
    let mut word = [0; 4];
    word[4 - N..].copy_from_slice(&bytes[at..at + N]);
    u32::from_be_bytes(word)
}

// The number of which the four bytes are the two's complement.
#[tactic(auto, using(crate::proofs::Numbers::signed_is, crate::proofs::Numbers::signed_low))]
pub fn signed(n: u32) -> i64
    ensures { result ≡ signed n }
{
    i64::from(n.cast_signed())
}

// An unsigned number in four bytes.
#[tactic(auto, using(crate::proofs::Numbers::word_written, crate::proofs::Numbers::four_written))]
pub fn in_four(n: u32) -> [u8; 4]
    ensures { result ≡ in_bytes 4 n }
{
    n.to_be_bytes()
}

// A signed number in four bytes, as two's complement.
#[tactic(auto, using(crate::proofs::Numbers::complement_is))]
pub fn in_four_signed(n: i32) -> [u8; 4]
    ensures { result ≡ in_bytes 4 (complement n) }
{
    in_four(n.cast_unsigned())
}
