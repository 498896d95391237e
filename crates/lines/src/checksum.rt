// The checksum FNV-1a of 64 bits, and storage filled with one byte.
ghost use Rattle.std.specs.Prelude.{◌≡◌, ◌*◌, ◌%◌, ◌^◌};
ghost use Rattle.lines.specs.Checksum.{prime, mixed, checksum as checksum_of};

const START: u64 = 14695981039346656037;

const PRIME_LOW: u64 = 435;

// Times the prime, which is 2^40 and 435, without what goes past 64 bits.
fn times_prime(h: u64) -> u64
    ensures { result ≡ h * prime % 2 ^ 64 }
{
    let high = h % 16777216 * 1099511627776;
    let upper = h / 4294967296 * PRIME_LOW % 4294967296 * 4294967296;
    let lower = h % 4294967296 * PRIME_LOW;
    high.wrapping_add(upper.wrapping_add(lower))
}

pub fn checksum(s: &[u8]) -> u64
    ensures { result ≡ checksum_of s.now }
{
    let mut h = START;
    for b in s {
        h = times_prime(h ^ *b as u64);
    }
    h
}
