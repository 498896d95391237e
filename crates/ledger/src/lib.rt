// The ledger: what is known of each token, in two slices of four columns. A row past the end reads as 0, and a put there changes nothing.
#![tactic(auto)]

ghost use Rattle.std.specs.Prelude.{◌≡◌, ◌<◌, get_or};
ghost use Rattle.ledger.specs.Book.{wide_of, thin_of, wide_column, thin_column, on_wide, on_thin, put_in, zeros, put_value, put_mean, put_under, put_offset, put_found, put_goes, put_opens, put_written, thin_limit};

// What a thin column keeps of a number: 16 bits.
pub const THIN_LIMIT: usize = 65536;

// ── a column by its number ──

// Kept: the two of each pair differ in an element's type; a generic one is no plainer, since each of the readers and writers below would then show of its own
// element what `wide_of` or `thin_of` says, and thin ones widen it.
fn wide_at(wide: &[u64], column: usize, t: usize) -> u64
    requires { column < 4 }
    ensures { result ≡ get_or (wide_column column (wide_of wide.now)) t 0 }
{
    if t < wide.len() / 4 {
        return wide[t * 4 + column];
    }
    0
}

fn thin_at(thin: &[u16], column: usize, t: usize) -> usize
    requires { column < 4 }
    ensures { (result ≡ get_or (thin_column column (thin_of thin.now)) t 0) × (result < thin_limit) }
{
    if t < thin.len() / 4 {
        return thin[t * 4 + column] as usize;
    }
    0
}

fn put_wide(wide: &mut [u64], column: usize, t: usize, v: u64)
    requires { column < 4 }
    ensures { wide_of wide.new ≡ on_wide column (put_in t v) (wide_of wide.old) }
{
    if t < wide.len() / 4 {
        wide[t * 4 + column] = v;
    }
}

fn put_thin(thin: &mut [u16], column: usize, t: usize, v: usize)
    requires { (column < 4) × (v < thin_limit) }
    ensures { thin_of thin.new ≡ on_thin column (put_in t v) (thin_of thin.old) }
{
    if t < thin.len() / 4 {
        thin[t * 4 + column] = v as u16;
    }
}

fn clear_wide(wide: &mut [u64], column: usize)
    requires { column < 4 }
    ensures { wide_of wide.new ≡ on_wide column zeros (wide_of wide.old) }
{
    for t in 0..wide.len() / 4 {
        put_wide(wide, column, t, 0);
    }
}

fn clear_thin(thin: &mut [u16], column: usize)
    requires { column < 4 }
    ensures { thin_of thin.new ≡ on_thin column zeros (thin_of thin.old) }
{
    for t in 0..thin.len() / 4 {
        put_thin(thin, column, t, 0);
    }
}

// ── 64 bits each ──

// A number's value, a name's key.
pub fn value(wide: &[u64], t: usize) -> u64
    ensures { result ≡ get_or (wide_of wide.now).values t 0 }
{
    wide_at(wide, 0, t)
}

// What a declared name means.
pub fn mean(wide: &[u64], t: usize) -> u64
    ensures { result ≡ get_or (wide_of wide.now).means t 0 }
{
    wide_at(wide, 1, t)
}

// The base that a declared cell is under.
pub fn under(wide: &[u64], t: usize) -> u64
    ensures { result ≡ get_or (wide_of wide.now).under t 0 }
{
    wide_at(wide, 2, t)
}

// Where a declared cell stands.
pub fn offset(wide: &[u64], t: usize) -> u64
    ensures { result ≡ get_or (wide_of wide.now).offsets t 0 }
{
    wide_at(wide, 3, t)
}

pub fn put_value(wide: &mut [u64], t: usize, v: u64)
    ensures { wide_of wide.new ≡ put_value t v (wide_of wide.old) }
{
    put_wide(wide, 0, t, v);
}

pub fn put_mean(wide: &mut [u64], t: usize, v: u64)
    ensures { wide_of wide.new ≡ put_mean t v (wide_of wide.old) }
{
    put_wide(wide, 1, t, v);
}

pub fn put_under(wide: &mut [u64], t: usize, v: u64)
    ensures { wide_of wide.new ≡ put_under t v (wide_of wide.old) }
{
    put_wide(wide, 2, t, v);
}

pub fn put_offset(wide: &mut [u64], t: usize, v: u64)
    ensures { wide_of wide.new ≡ put_offset t v (wide_of wide.old) }
{
    put_wide(wide, 3, t, v);
}

// A column that has served as a work list is lent again, as zeros.
pub fn clear_offsets(wide: &mut [u64])
    ensures { wide_of wide.new ≡ on_wide 3 zeros (wide_of wide.old) }
{
    clear_wide(wide, 3);
}

// ── 16 bits each ──

// The declaration that a name means.
pub fn found(thin: &[u16], t: usize) -> usize
    ensures { (result ≡ get_or (thin_of thin.now).found t 0) × (result < thin_limit) }
{
    thin_at(thin, 0, t)
}

// The label that a GOTO means.
pub fn goes(thin: &[u16], t: usize) -> usize
    ensures { (result ≡ get_or (thin_of thin.now).goes t 0) × (result < thin_limit) }
{
    thin_at(thin, 1, t)
}

// The segment that a base declaration opens.
pub fn opens(thin: &[u16], t: usize) -> usize
    ensures { (result ≡ get_or (thin_of thin.now).opens t 0) × (result < thin_limit) }
{
    thin_at(thin, 2, t)
}

// The registers that a procedure's text writes.
pub fn written(thin: &[u16], t: usize) -> usize
    ensures { (result ≡ get_or (thin_of thin.now).written t 0) × (result < thin_limit) }
{
    thin_at(thin, 3, t)
}

pub fn put_found(thin: &mut [u16], t: usize, v: usize)
    requires { v < thin_limit }
    ensures { thin_of thin.new ≡ put_found t v (thin_of thin.old) }
{
    put_thin(thin, 0, t, v);
}

pub fn put_goes(thin: &mut [u16], t: usize, v: usize)
    requires { v < thin_limit }
    ensures { thin_of thin.new ≡ put_goes t v (thin_of thin.old) }
{
    put_thin(thin, 1, t, v);
}

pub fn put_opens(thin: &mut [u16], t: usize, v: usize)
    requires { v < thin_limit }
    ensures { thin_of thin.new ≡ put_opens t v (thin_of thin.old) }
{
    put_thin(thin, 2, t, v);
}

pub fn put_written(thin: &mut [u16], t: usize, v: usize)
    requires { v < thin_limit }
    ensures { thin_of thin.new ≡ put_written t v (thin_of thin.old) }
{
    put_thin(thin, 3, t, v);
}

pub fn clear_opens(thin: &mut [u16])
    ensures { thin_of thin.new ≡ on_thin 2 zeros (thin_of thin.old) }
{
    clear_thin(thin, 2);
}

pub fn clear_written(thin: &mut [u16])
    ensures { thin_of thin.new ≡ on_thin 3 zeros (thin_of thin.old) }
{
    clear_thin(thin, 3);
}

// ── both ──

// What the name at token t means.
pub fn meaning(wide: &[u64], thin: &[u16], t: usize) -> u64
    ensures { result ≡ get_or (wide_of wide.now).means (get_or (thin_of thin.now).found t 0) 0 }
{
    mean(wide, found(thin, t))
}
