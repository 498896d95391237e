// Lent arrays, read and written at any index: past the end 0 is read, and nothing is written.
#![tactic(auto)]

ghost use Rattle.std.specs.Prelude.{◌≡◌, get_or, set};

// A name's key, by its token.
pub fn key(keys: &[u64], t: usize) -> u64
    ensures { result ≡ get_or keys.now t 0 }
{
    keys.get(t).copied().unwrap_or(0)
}

pub fn put_wide(a: &mut [u64], i: usize, v: u64)
    ensures { a.new ≡ set a.old i v }
{
    if i < a.len() {
        a[i] = v;
    }
}

// A token's kind.
pub fn kind(kinds: &[u8], t: usize) -> u8
    ensures { result ≡ get_or kinds.now t 0 }
{
    kinds.get(t).copied().unwrap_or(0)
}
