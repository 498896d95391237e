// A line that is put together in lent room; what has no room is left out.
ghost use Rattle.std.specs.Prelude.{◌≤◌, length};

pub fn put(out: &mut [u8], at: usize, b: u8) -> usize
    requires { at ≤ length out.old }
    ensures { result ≤ length out.old }
{
    if at < out.len() {
        out[at] = b;
        return at + 1;
    }
    at
}

pub fn put_all(out: &mut [u8], at: usize, text: &[u8]) -> usize
    requires { at ≤ length out.old }
    ensures { result ≤ length out.old }
{
    let mut end = at;
    for b in text {
        end = put(out, end, *b);
    }
    end
}

pub fn put_decimal(out: &mut [u8], at: usize, n: u64) -> usize
    requires { at ≤ length out.old }
    ensures { result ≤ length out.old }
{
    let mut text = [0u8; 20];
    let k = io::decimal(n, &mut text);
    put_all(out, at, &text[..k])
}

// 16 hexadecimal digits.
pub fn put_hexadecimal(out: &mut [u8], at: usize, n: u64) -> usize
    requires { at ≤ length out.old }
    ensures { result ≤ length out.old }
{
    let mut text = [0u8; 16];
    let k = io::hex(n, 16, &mut text);
    put_all(out, at, &text[..k])
}

// Each number with a blank behind it.
pub fn put_fields(out: &mut [u8], at: usize, fields: &[u64]) -> usize
    requires { at ≤ length out.old }
    ensures { result ≤ length out.old }
{
    let mut end = at;
    for n in fields {
        end = put_decimal(out, end, *n);
        end = put(out, end, b' ');
    }
    end
}
