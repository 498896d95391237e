// 32-bit arithmetic with the condition code. Values wrap; codes are worked out from the signed and the unsigned readings.
#![tactic(auto)]

ghost use Rattle.std.specs.Prelude.{◌≡◌, ◌<◌, ◌≤◌, pos, neg_ℤ, bit_and, bit_or, bit_xor};
ghost use Rattle.alu.specs.Biased.{biased as biased_of, code_by};
ghost use Rattle.alu.specs.Word.{added, subtracted, complemented, made_positive, made_negative, compared_code, tested, compared_logical, inserted, added_logical, subtracted_logical, zero_code, bits_made, distance_of, low_bits, product as product_of, half_product, shifted_left_logical, shifted_right_logical, shifted_left, shifted_right};

const TOP: u32 = 2147483648;

// A value with its condition code. 16 bytes: a struct of 8 would be packed into one word and taken apart at each use.
// Kept: the code is a number, since C gives it and is given it (`tautgaff_run`), and refusal 18 is one over 3.
#[derive(Clone, Copy)]
pub struct Made {
    pub value: u32,
    pub code: u64,
}

// The signed reading and 2^31.
fn biased(a: u32) -> u64
    ensures { (result ≡ biased_of a) × (result < 4294967296) }
{
    a.wrapping_add(TOP) as u64
}

// The code of a signed result, which is t less 2^32.
fn settled_code(t: u64) -> u64
    ensures { result ≡ code_by t }
{
    if 4294967296 < t {
        if t < 6442450944 {
            return 2;
        }
        return 3;
    }
    if t == 4294967296 {
        return 0;
    }
    if 2147483648 <= t {
        return 1;
    }
    3
}

pub fn add(a: u32, b: u32) -> Made
    ensures { result ≡ added a b }
{
    Made {
        value: a.wrapping_add(b),
        code: settled_code(biased(a) + biased(b)),
    }
}

pub fn subtract(a: u32, b: u32) -> Made
    ensures { result ≡ subtracted a b }
{
    Made {
        value: a.wrapping_sub(b),
        code: settled_code(4294967296 + biased(a) - biased(b)),
    }
}

pub fn complement(b: u32) -> Made
    ensures { result ≡ complemented b }
{
    subtract(0, b)
}

pub fn positive(b: u32) -> Made
    ensures { result ≡ made_positive b }
{
    if b < TOP {
        return Made {
            value: b,
            code: settled_code(4294967296 + (b as u64)),
        };
    }
    complement(b)
}

pub fn negative(b: u32) -> Made
    ensures { result ≡ made_negative b }
{
    if b < TOP {
        return complement(b);
    }
    Made { value: b, code: 1 }
}

pub fn compare(a: u32, b: u32) -> u64
    ensures { result ≡ compared_code a b }
{
    let x = biased(a);
    let y = biased(b);
    if x < y {
        return 1;
    }
    if x == y {
        return 0;
    }
    2
}

pub fn test(b: u32) -> Made
    ensures { result ≡ tested b }
{
    Made {
        value: b,
        code: compare(b, 0),
    }
}

pub fn compare_logical(a: u32, b: u32) -> u64
    ensures { result ≡ compared_logical a b }
{
    if a < b {
        return 1;
    }
    if a == b {
        return 0;
    }
    2
}

pub fn insert(a: u32, b: u32) -> u32
    ensures { result ≡ inserted a b }
{
    a / 256 * 256 + b % 256
}

pub fn add_logical(a: u32, b: u32) -> Made
    ensures { result ≡ added_logical a b }
{
    let v = a.wrapping_add(b);
    let z = zero_code(v);
    if v < a {
        return Made {
            value: v,
            code: z + 2,
        };
    }
    Made { value: v, code: z }
}

pub fn subtract_logical(a: u32, b: u32) -> Made
    ensures { result ≡ subtracted_logical a b }
{
    let v = a.wrapping_sub(b);
    let z = zero_code(v);
    if a < b {
        return Made { value: v, code: z };
    }
    Made {
        value: v,
        code: z + 2,
    }
}

fn zero_code(v: u32) -> u64
    ensures { (result ≡ zero_code v) × (result < 2) }
{
    if v == 0 { 0 } else { 1 }
}

fn bits_made(v: u32) -> Made
    ensures { result ≡ bits_made v }
{
    Made {
        value: v,
        code: zero_code(v),
    }
}

pub fn and(a: u32, b: u32) -> Made
    ensures { result ≡ bits_made (bit_and a b) }
{
    bits_made(a & b)
}

pub fn or(a: u32, b: u32) -> Made
    ensures { result ≡ bits_made (bit_or a b) }
{
    bits_made(a | b)
}

pub fn exclusive_or(a: u32, b: u32) -> Made
    ensures { result ≡ bits_made (bit_xor a b) }
{
    bits_made(a ^ b)
}

// How far the signed reading is from zero.
fn distance(a: u32) -> u64
    ensures { (result ≡ distance_of a) × (result ≤ 2147483648) }
{
    if a < TOP {
        a as u64
    } else {
        4294967296 - (a as u64)
    }
}

fn negated(p: u64) -> u64
    ensures { result ≡ low_bits 64 (neg_ℤ (pos p)) }
{
    if p == 0 {
        0
    } else {
        18446744073709551615 - p + 1
    }
}

pub fn product(a: u32, b: u32) -> u64
    ensures { result ≡ product_of a b }
{
    let p = distance(a) * distance(b);
    if a < TOP {
        if b < TOP { p } else { negated(p) }
    } else if b < TOP {
        negated(p)
    } else {
        p
    }
}

pub fn half_product(a: u32, b: u32) -> u32
    ensures { result ≡ half_product a b }
{
    (product(a, b) % 4294967296) as u32
}

pub fn shift_right_logical(a: u32, n: u32) -> u32
    requires { n < 64 }
    ensures { result ≡ shifted_right_logical a n }
{
    ((a as u64) >> n) as u32
}

pub fn shift_left_logical(a: u32, n: u32) -> u32
    requires { n < 64 }
    ensures { result ≡ shifted_left_logical a n }
{
    if 32 <= n {
        return 0;
    }
    (((a as u64) << n) % 4294967296) as u32
}

pub fn shift_left(a: u32, n: u32) -> Made
    requires { n < 64 }
    ensures { result ≡ shifted_left a n }
{
    if 32 <= n {
        if a == 0 {
            return Made { value: 0, code: 0 };
        }
        if a < TOP {
            return Made { value: 0, code: 3 };
        }
        return Made {
            value: TOP,
            code: 3,
        };
    }
    let w = distance(a) << n;
    let bits = (((a as u64) << n) % 2147483648) as u32;
    if a < TOP {
        return Made {
            value: bits,
            code: settled_code(4294967296 + w),
        };
    }
    if 2147483648 < w {
        return Made {
            value: TOP + bits,
            code: 3,
        };
    }
    Made {
        value: TOP + bits,
        code: 1,
    }
}

pub fn shift_right(a: u32, n: u32) -> Made
    requires { n < 64 }
    ensures { result ≡ shifted_right a n }
{
    if a < TOP {
        let v = shift_right_logical(a, n);
        return Made {
            value: v,
            code: settled_code(4294967296 + (v as u64)),
        };
    }
    let c = shift_right_logical(4294967295 - a, n);
    Made {
        value: 4294967295 - c,
        code: 1,
    }
}
