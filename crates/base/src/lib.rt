// Small numbers; bytes, and cells of n bytes in lent storage, the most significant byte first, for every n up to 4.
#![tactic(auto)]

ghost use Rattle.std.specs.Prelude.{◌≡◌, ◌+◌, ◌-◌, ◌≤◌, ◌<◌, ◌^◌, min, length, set};
ghost use Rattle.base.specs.Numbers.{value_at, stored};

pub fn least(a: usize, b: usize) -> usize
    ensures { result ≡ min a b }
{
    a.min(b)
}

// What is left of a after b is taken, and 0 where it is less.
pub fn less(a: usize, b: usize) -> usize
    ensures { result ≡ a - b }
{
    a.saturating_sub(b)
}

// One byte, where there is room for it.
pub fn put_byte(s: &mut [u8], i: usize, v: u8)
    ensures { s.new ≡ set s.old i v }
{
    if i < s.len() {
        s[i] = v;
    }
}

// The number in the n bytes from `at`.
pub fn load(s: &[u8], at: usize, n: usize) -> u32
    requires { (n ≤ 4) × (at + n ≤ length s.now) }
    ensures { (result ≡ value_at s.now at n) × (result < 256 ^ n) }
{
    let mut v: u64 = 0;
    for b in &s[at..at + n] {
        v = v * 256 + u64::from(*b);
    }
    v as u32
}

// Lays the n low bytes of v from `at`, the last first.
pub fn store(s: &mut [u8], at: usize, n: usize, v: u32)
    requires { at + n ≤ length s.old }
    ensures { s.new ≡ stored s.old at n v }
{
    let mut rest = v;
    for i in (0..n).rev() {
        s[at + i] = (rest % 256) as u8;
        rest /= 256;
    }
}
