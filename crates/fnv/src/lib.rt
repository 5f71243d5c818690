// FNV-1a with 64 bits over bytes, and the block id that it gives.
#![tactic(auto)]

ghost use Rattle.std.specs.Prelude.{◌≡◌};
ghost use Rattle.fnv.specs.Fnv.{prime_multiple, next_hash, hash_onward, hash_of, id_of_block};

// FNV-1a's value of no bytes.
const BASIS: u64 = 14695981039346656037;

// FNV's prime, 256 * 2^32 + 435.
const PRIME: u64 = 1099511628211;

// x times FNV's prime, modulo 2^64.
fn times_prime(x: u64) -> u64
    ensures { result ≡ prime_multiple x }
{
    x.wrapping_mul(PRIME)
}

// The hash h, going on with the byte b.
#[tactic(auto, unfolding(crate::specs::Fnv::next_hash))]
pub fn hash_step(h: u64, b: u8) -> u64
    ensures { result ≡ next_hash h b }
{
    times_prime(u64::from(b) ^ h)
}

// The hash h, going on with all of the bytes.
pub fn hash_from(h: u64, bytes: &[u8]) -> u64
    ensures { result ≡ hash_onward h bytes.now }
{
    let mut value = h;
    for byte in bytes {
        value = hash_step(value, *byte);
    }
    value
}

// FNV-1a of the bytes.
pub fn hash(bytes: &[u8]) -> u64
    ensures { result ≡ hash_of bytes.now }
{
    hash_from(BASIS, bytes)
}

// The id of a block with these bytes: their hash, or 1 where that is 0.
#[tactic(auto, unfolding(crate::specs::Fnv::id_of_block))]
pub fn block_id(bytes: &[u8]) -> u64
    ensures { result ≡ id_of_block bytes.now }
{
    let value = hash(bytes);
    if value == 0 { 1 } else { value }
}
