// The token reader and the grammar for C and Rust: the functions of the library `c_text` under their own names, in a static library.
#![tactic(auto)]

ghost use Rattle.std.specs.Prelude.{◌≡◌};
ghost use Rattle.token.specs.Answers.{lists, read_into, room, tokens_into};
ghost use Rattle.parse.specs.Programs.{judged};
ghost use Rattle.c_text.specs.Lent.{Lent, judged_in};

// `token_lists::tokens_of`.
#[unsafe(no_mangle)]
pub extern "C" fn tautgaff_tokens(
    text: &[u8],
    kinds: &mut [u8],
    values: &mut [u64],
    places: &mut [u32],
    lines: &mut [u32],
    columns: &mut [u32],
    told: &mut [usize; 4],
) -> u64
    ensures { let before = lists kinds.old values.old places.old lines.old columns.old in
        Lent (tokens_into (room before) text.now) before
        (lists kinds.new values.new places.new lines.new columns.new) result told.new }
{
    c_text::tautgaff_tokens(text, kinds, values, places, lines, columns, told)
}

// `token_lists::read_tokens`.
#[unsafe(no_mangle)]
pub extern "C" fn tautgaff_read_tokens(
    text: &[u8],
    kinds: &mut [u8],
    values: &mut [u64],
    places: &mut [u32],
    lines: &mut [u32],
    columns: &mut [u32],
    told: &mut [usize; 4],
) -> u64
    ensures { let before = lists kinds.old values.old places.old lines.old columns.old in
        Lent (read_into (room before) text.now) before
        (lists kinds.new values.new places.new lines.new columns.new) result told.new }
{
    c_text::tautgaff_read_tokens(text, kinds, values, places, lines, columns, told)
}

// `parse::grammatical`.
#[unsafe(no_mangle)]
pub extern "C" fn tautgaff_grammatical(text: &[u8], told: &mut [usize; 3]) -> u64
    ensures { judged_in result told.new ≡ judged text.now }
{
    c_text::tautgaff_grammatical(text, told)
}
