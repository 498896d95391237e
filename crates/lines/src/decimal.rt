// Numbers in decimal, and lines of them.
ghost use Rattle.std.specs.Prelude.{◌≡◌, ◌+◌, ◌-◌, ◌*◌, ◌^◌, ◌<◌, ◌≤◌, min, length, IfSome};
ghost use Rattle.lines.specs.Decimal.{is_digit, digit_of, Numbered};

// A number at the front of a text, and the bytes that it takes.
#[derive(Clone, Copy)]
pub struct Number {
    pub size: usize,
    pub value: u64,
}

fn is_digit(b: u8) -> bool
    ensures { result ≡ is_digit b }
{
    (b'0' <= b) & (b <= b'9')
}

fn digit(b: u8) -> u64
    ensures { (result ≡ digit_of b) × (result < 256) }
{
    u64::from(b.saturating_sub(b'0'))
}

// One digit more, cut off at the largest.
fn grown(v: u64, d: u64) -> u64
    requires { d < 256 }
    ensures { result ≡ min (2 ^ 64 - 1) (v * 10 + d) }
{
    v.saturating_mul(10).saturating_add(d)
}

// The digits at the front, and their number.
pub fn leading_number(s: &[u8]) -> Number
    ensures { Numbered s.now result }
{
    let mut value: u64 = 0;
    for (size, b) in s.iter().enumerate() {
        if !is_digit(*b) {
            return Number { size, value };
        }
        value = grown(value, digit(*b));
    }
    Number {
        size: s.len(),
        value,
    }
}

// The number at the front with the byte that has to follow it.
fn field(s: &[u8], end: u8) -> Option<Number>
    ensures { IfSome result (λ n. n.size ≤ length s.now) }
{
    let n = leading_number(s);
    if n.size == 0 || s.get(n.size) != Some(&end) {
        return None;
    }
    Some(Number {
        size: n.size + 1,
        value: n.value,
    })
}

fn separator(left: usize) -> u8 {
    if left == 1 { b'\n' } else { b' ' }
}

// A line of as many numbers as there is room for, single blanks between: its bytes with the newline, if the text begins with such a line.
pub fn fields(s: &[u8], values: &mut [u64]) -> Option<usize>
    ensures { IfSome result (λ size. size ≤ length s.now) }
{
    let count = values.len();
    let mut at: usize = 0;
    for (i, value) in values.iter_mut().enumerate() {
        let n = field(&s[at..], separator(count - i))?;
        *value = n.value;
        at += n.size;
    }
    Some(at)
}
