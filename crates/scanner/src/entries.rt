// The table of reserved words, made by `build/words`. A match and no array: an array would be laid out anew for every word that is read.
ghost use Rattle.std.specs.Prelude.{◌≡◌};
ghost use Rattle.scanner.specs.Entries.{place_of, entries};
ghost use Rattle.scanner.specs.Inner.{entry_at};

// Where a word with this key stands.
pub fn place(key: u64) -> u64
    ensures { result ≡ place_of key }
{
    key % 11266 % 62
}

// Each word's key times 64 and its kind; 1, which is that of no word, where there is none.
pub fn entry(place: u64) -> u64
    ensures { result ≡ entry_at entries place }
{
    match place {
        3 => 2794202, // XOR
        4 => 3492157576, // WHILE
        5 => 85081182, // SHRL
        6 => 43611015, // ELSE
        8 => 85066655, // SHLA
        9 => 1225623491, // BEGIN
        10 => 856603, // ABS
        11 => 56293, // OF
        12 => 49834765, // GOTO
        13 => 1301194, // FOR
        14 => 36726692, // CASE
        15 => 88037318, // THEN
        17 => 1767076687439, // COMMENT
        19 => 85067357, // SHLL
        21 => 3295988556, // UNTIL
        23 => 57049, // OR
        25 => 3956758474325, // SEGMENT
        27 => 3020246200145, // LOGICAL
        28 => 1157840531, // ARRAY
        30 => 4652580649483927, // PROCEDURE
        31 => 1215044, // END
        33 => 137427610859732, // REGISTER
        34 => 33740694, // BASE
        35 => 2599819994320, // INTEGER
        37 => 2253371358935267, // CHARACTER
        38 => 85080480, // SHRA
        40 => 124743218865185, // OVERFLOW
        42 => 35733666, // BYTE
        43 => 42437, // IF
        45 => 86046795, // STEP
        46 => 1941020, // NEG
        53 => 3062688338, // SHORT
        55 => 883288, // AND
        58 => 31497, // DO
        59 => 71215694, // NULL
        _ => 1,
    }
}
