// The kinds of tokens, as specs/Kinds.antt numbers them.
// Kept: numbers and no enum, since `token_lists::read_tokens`, `tokens_of` and `read_kinds` lay them into lists of bytes that C lends (`tautgaff_tokens`).
pub const END_OF_TEXT: u8 = 0;

pub const NAME: u8 = 1;

pub const NUMBER: u8 = 2;

pub const BEGIN: u8 = 3;

pub const END: u8 = 4;

pub const IF: u8 = 5;

pub const THEN: u8 = 6;

pub const ELSE: u8 = 7;

pub const WHILE: u8 = 8;

pub const DO: u8 = 9;

pub const FOR: u8 = 10;

pub const STEP: u8 = 11;

pub const UNTIL: u8 = 12;

pub const GOTO: u8 = 13;

pub const NULL: u8 = 14;

pub const COMMENT: u8 = 15;

pub const INTEGER: u8 = 16;

pub const LOGICAL: u8 = 17;

pub const SHORT: u8 = 18;

pub const ARRAY: u8 = 19;

pub const REGISTER: u8 = 20;

pub const SEGMENT: u8 = 21;

pub const BASE: u8 = 22;

pub const PROCEDURE: u8 = 23;

pub const AND: u8 = 24;

pub const OR: u8 = 25;

pub const XOR: u8 = 26;

pub const ABS: u8 = 27;

pub const NEG: u8 = 28;

pub const SHLL: u8 = 29;

pub const SHRL: u8 = 30;

pub const SHLA: u8 = 31;

pub const SHRA: u8 = 32;

pub const OVERFLOW: u8 = 33;

pub const BYTE: u8 = 34;

pub const CHARACTER: u8 = 35;

pub const CASE: u8 = 36;

pub const OF: u8 = 37;

pub const BECOMES: u8 = 64;

pub const AT_MOST: u8 = 65;

pub const AT_LEAST: u8 = 66;

pub const UNEQUAL: u8 = 67;

pub const ADD_LOGICAL: u8 = 68;

pub const SUBTRACT_LOGICAL: u8 = 69;

pub const PLUS: u8 = 70;

pub const MINUS: u8 = 71;

pub const TIMES: u8 = 72;

pub const EQUAL: u8 = 73;

pub const LESS: u8 = 74;

pub const MORE: u8 = 75;

pub const COMMA: u8 = 76;

pub const SEMICOLON: u8 = 77;

pub const COLON: u8 = 78;

pub const OPEN: u8 = 79;

pub const CLOSE: u8 = 80;

pub const AT: u8 = 81;
