// The pages of `tautgaff help`. Made of examples/refusals.data and command/usage by examples/make.
pub const PAGES: [&[u8]; 26] = [
    b"Stop 0: the budget is used up

As many instructions as were allowed have been completed, and the program is not at its end.

This, with budget 1000, runs and gets stop 0: the GOTO leads to itself.

    BEGIN L: GOTO L; END @

This, with budget 1000, runs and gets stop 1: one instruction leads to the end.

    BEGIN GOTO L; L: END @
",
    b"Refusal 1: the source is too long

The source has more than 32,768 bytes. All of them count, also those after the `@`; none of them is read.
Place: 32768, the first byte too many.

This gets refusal 1 at 32768: `BEGIN END @` with its newline has 12 bytes, and 32,757 newlines follow.

    BEGIN END @
    (an empty line)   ... 32757 times

This is accepted: one newline less makes it 32,768 bytes.

    BEGIN END @
    (an empty line)   ... 32756 times

Stop 1: the program's end

The counter is at `0A 00`, the last instruction of every translated program. It is not counted.

This, with budget 2, runs and gets stop 1: after one instruction the end is reached.

    BEGIN R1 := R2; END @

This, with budget 1, runs and gets stop 0: the budget comes first.

    BEGIN R1 := R2; END @
",
    b"Refusal 2: a byte that is in no token, or a comment that is not closed

Capitals, digits, the signs of the language, `_` before a digit, `#` before a hexadecimal digit, blank and newline are all there is outside comments.
Small letters, TAB, CR and a byte-order mark are in no token. A comment runs from COMMENT to the next `;`.
Place: that byte, or the first byte of the word COMMENT.

This gets refusal 2 at 12, line 1 column 13: the small `r` is in no token.

    BEGIN R1 := r2; END @

This is accepted: a comment may hold any byte but `;`.

    BEGIN COMMENT r2 = 5% ?; R1 := R2; END @

Stop 2: a forbidden operand

What an instruction reads must lie wholly in one data segment, what it stores in the cells of one. A translated program can break this only with an
index.

This runs and gets stop 2: 8 bytes after A the literal 8 stands, which may be read but not written.

    BEGIN ARRAY (2) INTEGER A; R1 := 8; A(R1) := R2; END @

This runs and gets stop 1: 4 is the second element.

    BEGIN ARRAY (2) INTEGER A; R1 := 4; A(R1) := R2; END @
",
    b"Refusal 3: a number out of range

Decimal numbers run from 0 to 2147483647, with `_` in front, which is the minus sign, from _0 to _2147483648; after `#` any value of 32 bits may
stand.
Place: the number's first byte.

This gets refusal 3 at 12, line 1 column 13: it is one more than a register can hold as a positive number.

    BEGIN R1 := 2147483648; END @

This is accepted: negative numbers go one further.

    BEGIN R1 := _2147483648; END @

Stop 3: a misaligned operand

An operand of 4 bytes must lie at a multiple of 4, one of 2 bytes at a multiple of 2, one of 1 byte anywhere. A translated program can break this only
with an index.

This runs and gets stop 3: an index counts bytes, and 2 is half an element.

    BEGIN ARRAY (2) INTEGER A; R1 := 2; R2 := A(R1); END @

This runs and gets stop 1: elements of a short array have 2 bytes.

    BEGIN ARRAY (4) SHORT INTEGER A; R1 := 2; R2 := A(R1); END @
",
    b"Refusal 4: no program goes on like this

The tokens up to this one, with it, begin no program. All before it could have been the beginning of one.
Place: that token, or the text's length where the text ends too early.

This gets refusal 4 at 15, line 1 column 16: a statement is ended by `;`, the last one before END too.

    BEGIN R1 := R2 END @

This is accepted: here it is.

    BEGIN R1 := R2; END @

Stop 4: no instruction to carry out

The counter is odd or outside the program, or what it points to is none of the instructions of the language, or 1C or 5C with an odd register. No
translated program comes to this, only an object text made by other means.

This object text runs and gets stop 4: `0B 00` is not one of the instructions.

    01000002
    00000000020B00
    0201001000100010
    000100001000000000000000000000000000000000
    FF

This object text runs and gets stop 1: `0A 00` ends a program.

    01000002
    00000000020A00
    0201001000100010
    000100001000000000000000000000000000000000
    FF
",
    b"Refusal 5: constructs inside each other more than 64 deep

BEGIN, IF, WHILE, FOR, PROCEDURE and CASE open a construct; one stands inside 64 others. The BEGIN of a CASE belongs to it and opens none.
Place: that word.

This gets refusal 5 at 384, line 65 column 1: the 65th BEGIN stands inside 64 blocks.

    BEGIN   ... 65 times
    END;   ... 64 times
    END @

This is accepted: 64 may stand inside each other.

    BEGIN   ... 64 times
    END;   ... 63 times
    END @
",
    b"Refusal 6: a name that is not declared, a label that is not set

No declaration before this place, in this block or one around it, has the name; or no label of an enclosing block has it. A GOTO looks for labels no
further than the edge of the procedure body it stands in.
Place: the name.

This gets refusal 6 at 34, line 1 column 35: L is outside the body of P.

    BEGIN PROCEDURE P(R5); BEGIN GOTO L; END; P; L: END @

This is accepted: a label may come after the GOTO.

    BEGIN PROCEDURE P(R5); BEGIN GOTO L; L: END; P; END @
",
    b"Refusal 7: declared twice

The block has declared this name already, or set this label. Only the first 10 characters of a name count. Labels and other names are apart from each
other.
Place: the second one.

This gets refusal 7 at 40, line 1 column 41: both begin with CENTIMETRE.

    BEGIN INTEGER CENTIMETRE; SHORT INTEGER CENTIMETRES; END @

This is accepted: the second A belongs to an inner block, which may hide names of outer ones.

    BEGIN INTEGER A; BEGIN INTEGER A; END; END @
",
    b"Refusal 8: a name or token that does not fit

A register stands where a cell has to, a cell where a register has to, a procedure's or function's name in an expression, a subscript after what is no
array, a short cell with AND, OR, XOR, `++` or `--`, a BYTE or CHARACTER cell in an assignment, a condition or as a limit; more than one register name is
assigned to a cell; a function is given too few or too many arguments, or one of a wrong kind, MVI, CLI, SET, RESET or TEST an index; arguments follow a
name that is no function's. Which function takes what: IC, STC and LA a register, then a cell; LTR two registers; MVI and CLI a number, then a cell; SET,
RESET and TEST a cell.
Place: the first name or token that does not fit; the function's name where the number of arguments is wrong.

This gets refusal 8 at 22, line 1 column 23: only a register can be stored in a cell.

    BEGIN INTEGER A; A := 5; END @

This is accepted: the number goes through a register.

    BEGIN INTEGER A; R1 := 5; A := R1; END @

This gets refusal 8 at 30, line 1 column 31: the instruction of SET has no room for an index.

    BEGIN ARRAY (4) BYTE B; SET(B(R1)); END @

This is accepted: that of STC has.

    BEGIN ARRAY (4) BYTE B; R2 := #FF; STC(R2)(B(R1)); END @
",
    b"Refusal 9: a register that cannot be this one

Register numbers are 0 to 15. Register 0 cannot be a base, a return register, an index, a shift amount or the register of a CASE, since the machine takes
0 there for no register. A product by a number, a register or an integer cell needs an odd target.
Place: the number, the register's name or the `*`.

This gets refusal 9 at 15, line 1 column 16: a product has 64 bits: the target must be the odd register of a pair.

    BEGIN R2 := R1 * 10; END @

This is accepted: R3 takes the lower half; the upper half goes to R2.

    BEGIN R3 := R1 * 10; END @
",
    b"Refusal 10: a protected register is written

Protected are register 15, by which the program finds its own instructions; 14, the data base, by which it finds its cells; the bases of the enclosing
blocks; and the return registers of the procedures around this place. A call writes the procedure's return register and all that its body writes,
through calls too. IC, LA and LTR write their first register, CASE the one that it goes by.
Place: the target, the register of a function or a CASE, the call or the base's name; the `*` where it is the register below the target.

This gets refusal 10 at 6, line 1 column 7: RE is register 14, the data base: cells without SEGMENT BASE belong to it.

    BEGIN RE := R1; END @

This is accepted: RD is nobody's base here, and a protected register may be read.

    BEGIN RD := R1; R1 := RE; END @
",
    b"Refusal 11: a value that is out of bounds

An initial value that a short cell cannot hold (-32768 to 65535), or a BYTE or CHARACTER cell (0 to 255), or one value too many; an array count that is
not 1 to 2,048; a subscript that is not the byte offset of an element; a shift by more than 63; a number of MVI or CLI that is not 0 to 255.
Place: the number.

This gets refusal 11 at 35, line 1 column 36: a subscript is a byte offset, and elements of 4 bytes are at 0, 4, 8 and 12.

    BEGIN ARRAY (4) INTEGER A; R1 := A(3); END @

This is accepted: 12 is the last element.

    BEGIN ARRAY (4) INTEGER A; R1 := A(12); END @

This gets refusal 11 at 18, line 1 column 19: a byte has no sign.

    BEGIN BYTE B; CLI(_1)(B); END @

This is accepted: 255 is the greatest.

    BEGIN BYTE B; CLI(#FF)(B); END @
",
    b"Refusal 12: a cell past the end of its segment, or a third base declaration

A data segment has 4,096 bytes; the first 16 of the one of base 14 are a table. Two SEGMENT BASE declarations are all that a program has room for.
Place: the cell's name, or the base's.

This gets refusal 12 at 27, line 1 column 28: 16 + 4 * 1021 is 4,100.

    BEGIN ARRAY (1021) INTEGER A; END @

This is accepted: 16 + 4 * 1020 is 4,096.

    BEGIN ARRAY (1020) INTEGER A; END @
",
    b"Refusal 13: too many names

A program may declare 256 names and set 256 labels, in all its blocks together.
Place: the 257th.

This gets refusal 13 at 3596, line 258 column 7: each block sets a label of its own.

    BEGIN
    BEGIN L: END;   ... 257 times
    END @

This is accepted: 256 labels are allowed.

    BEGIN
    BEGIN L: END;   ... 256 times
    END @
",
    b"Refusal 14: the program is too long

The instructions have more than 4,096 bytes.
Place: 0.

This gets refusal 14 at 0: 2,048 instructions of two bytes and the last one, which ends the program, are 4,098 bytes.

    BEGIN
    R1 := R2;   ... 2048 times
    END @

This is accepted: this makes 4,096.

    BEGIN
    R1 := R2;   ... 2047 times
    END @
",
    b"Refusal 15: no room for the literals

Each different number that an instruction takes from storage is a literal of 4 bytes behind the cells of base 14; the last of them would end past
4,096.
Place: 0.

This gets refusal 15 at 0: the array fills the segment, and nothing is left for the 5.

    BEGIN ARRAY (1020) INTEGER A; R1 := 5; END @

This is accepted: no number is taken from storage; a shift's amount is none either.

    BEGIN ARRAY (1020) INTEGER A; R1 := R1 - R1; END @
",
    b"Refusal 16: the buffer is too short

The program is right, but the object text does not fit into the room that was lent for it. No byte is written.
Place: the length that is needed.

This, with room 137, gets refusal 16 at 138: the object text has 138 bytes.

    BEGIN INTEGER A(5); R1 := A + 3; A := R1; END @

This, with room 138, is accepted: it fits exactly.

    BEGIN INTEGER A(5); R1 := A + 3; A := R1; END @
",
    b"Refusal 17: no object text

The runner was not given exactly the form of an object text: capital hexadecimal, a frame a line, one program head and one to three data heads in
order, contents of 16 bytes a line, `FF` in the last line, every line ended.
Place: 0.

This object text gets refusal 17 at 0: the last line, `FF`, is missing.

    01000002
    00000000020A00
    0201001000100010
    000100001000000000000000000000000000000000

This object text runs and gets stop 1: this is the object text of `BEGIN END @`.

    01000002
    00000000020A00
    0201001000100010
    000100001000000000000000000000000000000000
    FF
",
    b"Refusal 18: no condition code

The runner was given a condition code over 3.
Place: 0.

This, with code 4, gets refusal 18 at 0: the codes are 0, 1, 2 and 3.

    BEGIN END @

This, with code 3, runs and gets stop 1: 3 is the last one.

    BEGIN END @
",
    b"Refusal 19: too little storage

The runner was lent less than 20,480 bytes: segment 0 is loaded at 4,096, segment 3 at 16,384, each with 4,096 bytes.
Place: 0.

This, with storage 20479, gets refusal 19 at 0: a byte is missing.

    BEGIN END @

This, with storage 20480, runs and gets stop 1: this is enough for every program.

    BEGIN END @
",
    b"Tautgaff: PL360, translated and run, with proof.

    tautgaff translate FILE [-o OBJECT]   the object text, to OBJECT or standard output
    tautgaff check FILE...                each file's answer
    tautgaff run FILE|OBJECT [OPTIONS]    translates a source first; reports how the run ended
    tautgaff same FILE OBJECT             rebuilds and compares; where they differ, the first line and what it is
    tautgaff help [COMMAND|NUMBER]        this; more on a command; what a refusal or a stop means

FILE is a PL360 source, OBJECT an object text; `-` is standard input.
Status: 0 accepted, ended, same; 1 refused or different; 2 wrong use, or a file that cannot be read or written;
3 budget used up; 4 stopped by 2, 3 or 4.
",
    b"    tautgaff translate FILE [-o OBJECT]

Translates the source in FILE and writes the object text to OBJECT, or to standard output. OBJECT appears whole or not at all; one that is there
already is replaced; what is no file, as /dev/stdout, is written directly. A source that is refused leaves OBJECT as it was.
Of a source no more than 32,769 bytes are read: one of more than 32,768 is refused.
Status: 0 accepted, 1 refused, 2 wrong use, or a file that cannot be read or written.
",
    b"    tautgaff check FILE...

Says of each source whether it is accepted, or which refusal it gets: file, line and column, the line itself, and what stands there.
Status: 0 all accepted, 1 some refused, 2 wrong use, or a file that cannot be read.
",
    b"    tautgaff run FILE|OBJECT [--set NAME=VALUE]... [--show NAME]... [--budget N] [--cc N]

Runs an object text, or a source, which is translated first, and reports why it stopped, how many instructions were completed, the registers and the
condition code. Of a source a stop at an operand is shown where it is written, with the address.
    --set NAME=VALUE   what a register, or a cell of the source, has when the run begins; where nothing is said a register has 0
    --show NAME        a register, or a cell of the source, to report behind all registers
    --budget N         how many instructions may be completed; 1000000 where nothing is said
    --cc N             the condition code when the run begins, 0 to 3; 0 where nothing is said
NAME is R0 to R9 or RA to RF; or, for a source, a declared cell, or an element of an array, NAME(NUMBER), by its byte offset as in the language. If several
cells have the name, the first in the text is meant.
VALUE is decimal, with `_` or `-` in front if negative, or `#` and hexadecimal digits. Registers 14 and 15 are set by loading.
Status: 0 ended, 1 refused, 2 wrong use, or a file that cannot be read, 3 budget used up, 4 stopped by 2, 3 or 4.
",
    b"    tautgaff same FILE OBJECT

Translates the source in FILE again and compares the result with OBJECT, byte by byte. Where they differ it shows the first line that does, as it is and
as it should be, and says what the line is.
Status: 0 same, 1 different or refused, 2 wrong use, or a file that cannot be read.
",
    b"    tautgaff help [COMMAND|NUMBER]

Usage; more on a command; what the refusal or the stop with a number means, when it is given, a text that gets it and one that does not.
",
];
