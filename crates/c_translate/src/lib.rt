// The translator for C and Rust: a source and a buffer, each as its first byte and its length. The number is answered; place, line, column and length are left
// where the caller says.
#![tactic(auto)]

ghost use Rattle.std.specs.Prelude.{◌≡◌, ◌∷◌, []};
ghost use Rattle.translate.specs.Answers.{number_of, spot_of, length_of};
ghost use Rattle.c_translate.specs.Lent.{Lent, parts_of};

use translate::{Answer, Refused};

fn number_of(answer: Answer) -> u64
    ensures { result ≡ number_of answer }
{
    match answer {
        Ok(_) => 0,
        Err(refused) => refused.number as u64,
    }
}

fn parts_of(answer: Answer) -> [usize; 4]
    ensures { result ≡ parts_of (spot_of answer) (length_of answer) }
{
    match answer {
        Ok(written) => [0, 0, 0, written],
        Err(Refused { spot, .. }) => [spot.place, spot.line, spot.column, 0],
    }
}

// `translate::translate`.
pub fn tautgaff_translate(source: &[u8], buffer: &mut [u8], answer: &mut [usize; 4]) -> u64
    ensures { Lent source.now buffer.old buffer.new result answer.new }
{
    let told = translate::translate(source, buffer);
    *answer = parts_of(told);
    number_of(told)
}
