// What a program that compares stored answers says.
ghost use Rattle.std.specs.Prelude.{◌<◌, ◌≤◌};

use std::io::Print;

fn print<R: Print>(rt: &R, text: &[u8]) {
    let _ = rt.write_all(text);
}

fn print_decimal<R: Print>(rt: &R, n: u64) {
    let mut text = [0u8; 20];
    let k = io::decimal(n, &mut text);
    print(rt, &text[..k]);
}

// Says how many were compared and how many were equal.
pub fn say<R: Print>(rt: &R, name: &[u8], compared: u64, equal: u64) {
    print(rt, name);
    print(rt, b": ");
    print_decimal(rt, compared);
    print(rt, b" compared, ");
    print_decimal(rt, equal);
    print(rt, b" equal\n");
}

// Counts one more where it is equal, and names it where it is not.
pub fn counted<R: Print>(rt: &R, is_equal: bool, number: u64, equal: u64) -> u64
    requires { equal < number }
    ensures { result ≤ number }
{
    if is_equal {
        return equal + 1;
    }
    print(rt, b"vector ");
    print_decimal(rt, number);
    print(rt, b" differs\n");
    equal
}
