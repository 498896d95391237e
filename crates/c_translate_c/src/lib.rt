// `tautgaff_translate` for C and Rust: the function of the library `c_translate` under its own name, in a static library.
#![tactic(auto)]

ghost use Rattle.c_translate.specs.Lent.{Lent};

// A source and a buffer, each as its first byte and its length. The number is answered; place, line, column and length are left where the caller says.
#[unsafe(no_mangle)]
pub extern "C" fn tautgaff_translate(
    source: &[u8],
    buffer: &mut [u8],
    answer: &mut [usize; 4],
) -> u64
    ensures { Lent source.now buffer.old buffer.new result answer.new }
{
    c_translate::tautgaff_translate(source, buffer, answer)
}
