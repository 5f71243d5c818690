// F(j) of a shingle: FNV-1a of the byte j followed by the shingle's 20 bytes.
ghost use Rattle.std.specs.Prelude.{◌≡◌, ◌%◌, ◌^◌};
ghost use Rattle.sketch.specs.Cells.{tail_of, tag_of};

use shingle::Shingle;

// A shingle's tail, modulo 2^64.
pub fn tail(s: Shingle) -> u64
    ensures { result ≡ tail_of s % 2 ^ 64 }
{
    s.level.wrapping_mul(65536).wrapping_add(s.count)
}

// F(j) of a shingle. Of its tail only the low four bytes are hashed.
pub fn tag(j: u8, s: Shingle) -> u64
    ensures { result ≡ tag_of j s }
{
    let first = fnv::hash(&[j]);
    let second = fnv::hash_from(first, &s.previous.to_be_bytes());
    let third = fnv::hash_from(second, &s.own.to_be_bytes());
    fnv::hash_from(third, &tail(s).to_be_bytes()[4..])
}
