// Document 01, "Runner": refusals 17 to 19, loading, the run. Nothing is written before every refusal is decided.
#![tactic(auto)]

ghost use Rattle.std.specs.Prelude.{◌≡◌, ◌+◌, ◌-◌, ◌*◌, ◌<◌, ◌≤◌, length, Some};
ghost use Rattle.objtext.specs.Reader.{after_program, segment_list, read_as, read_object};
ghost use Rattle.machine.specs.Space.{needed};
ghost use Rattle.machine.specs.Run.{run};
ghost use Rattle.run.specs.Lent.{ran};
ghost use Rattle.runner.specs.Load.{placed, table_word, tabled, loaded, space_of, started as started_of};
ghost use Rattle.runner.specs.Charted.{charted};
ghost use Rattle.runner.specs.Runner.{runner, outcome};

pub use machine::Stop;
pub use run::Ran;

// "Segment k goes to 4096·(k+1)", and what four of them need.
const ROOM: usize = machine::ROOM;

const PAGES: usize = machine::PAGES;

const NEEDED: usize = ROOM * PAGES;

const PROGRAM_ORIGIN: u32 = ROOM as u32;

const DATA_ORIGIN: u32 = 2 * PROGRAM_ORIGIN;

// What is refused, by its number.
#[derive(Clone, Copy, PartialEq, Eq)]
pub enum Refusal {
    NoObject = 17,
    BadCode = 18,
    SmallStorage = 19,
}

// The program and the data segments to their places.
fn place(t: &[u8], count: usize, s: &mut [u8])
    requires { (read_as (Some count) t.now ≡ read_object t.now) × (needed ≤ length s.old) }
    ensures { s.new ≡ placed 0 (segment_list count t.now) s.old }
{
    objtext::fill(t, objtext::PROGRAM_HEAD, objtext::two_at(t, 4), s, ROOM);
    let mut at = objtext::after_program(t);
    for k in 1..count {
        objtext::fill(
            t,
            at + objtext::DATA_HEAD,
            objtext::two_at(t, at + 4),
            s,
            ROOM * (k + 1),
        );
        at = objtext::after_data(t, at);
    }
}

// A table word where it fits in segment 1's l bytes.
fn table_word(l: usize, k: usize, s: &mut [u8])
    requires { (k < 4) × (needed ≤ length s.old) }
    ensures { s.new ≡ table_word l k s.old }
{
    if 4 * k + 4 <= l {
        base::store(s, ROOM * 2 + 4 * k, 4, (ROOM * (k + 1)) as u32);
    }
}

fn table(l: usize, count: usize, s: &mut [u8])
    requires { (count ≤ 4) × (needed ≤ length s.old) }
    ensures { s.new ≡ tabled l count 0 s.old }
{
    for k in 0..count {
        table_word(l, k, s);
    }
}

pub fn load(t: &[u8], count: usize, s: &mut [u8])
    requires { (read_as (Some count) t.now ≡ read_object t.now) × (needed ≤ length s.old) }
    ensures { s.new ≡ loaded (segment_list count t.now) s.old }
{
    s[..NEEDED].fill(0);
    place(t, count, s);
    table(objtext::two_at(t, objtext::after_program(t) + 4), count, s);
}

// The map of what may be touched, from the data heads.
fn chart(t: &[u8], count: usize, map: &mut [usize; machine::MAP])
    requires { read_as (Some count) t.now ≡ read_object t.now }
    ensures { map.new ≡ charted (count - 1) 1 (after_program t.now) map.old }
{
    let mut at = objtext::after_program(t);
    for k in 1..count {
        let page = k + 1;
        map[machine::ENDS + page] = objtext::two_at(t, at + 4);
        map[machine::FROMS + page] = objtext::two_at(t, at + 8);
        map[machine::TOS + page] = objtext::two_at(t, at + 12);
        at = objtext::after_data(t, at);
    }
}

// The run of what is loaded.
pub fn started(
    t: &[u8],
    count: usize,
    given: [u32; 16],
    code: u64,
    budget: u32,
    s: &mut [u8],
) -> Ran
    requires { (read_as (Some count) t.now ≡ read_object t.now) × (needed ≤ length s.old) }
    ensures { ran result s.new ≡ run budget (space_of (segment_list count t.now)) (started_of given code) s.old }
{
    let mut map = [0usize; machine::MAP];
    chart(t, count, &mut map);
    let mut regs = given;
    regs[14] = DATA_ORIGIN;
    regs[15] = PROGRAM_ORIGIN;
    run::run(
        objtext::two_at(t, 4),
        &map,
        regs,
        code,
        PROGRAM_ORIGIN,
        budget,
        s,
    )
}

pub fn run_object(
    t: &[u8],
    regs: [u32; 16],
    code: u64,
    budget: u32,
    s: &mut [u8],
) -> Result<Ran, Refusal>
    ensures { outcome result regs code s.new ≡ runner t.now regs code budget s.old }
{
    let Some(count) = objtext::read(t) else {
        return Err(Refusal::NoObject);
    };
    if 3 < code {
        return Err(Refusal::BadCode);
    }
    if s.len() < NEEDED {
        return Err(Refusal::SmallStorage);
    }
    load(t, count, s);
    Ok(started(t, count, regs, code, budget, s))
}
