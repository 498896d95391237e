// What `--set` and `--show` say of registers. Of a source other names may be cells, and are left to who knows them.
#![tactic(auto)]

ghost use Rattle.std.specs.Prelude.{◌≡◌};
ghost use Rattle.settings.specs.Setting.{other as other_of, set_by, shown_by, said_by, start_of};

use words::{Awaited, Fault, Why};

// A name that is no register's.
fn other(values: [u32; 16], n: usize, source: bool) -> Result<[u32; 16], Fault>
    ensures { result ≡ other_of values n source }
{
    if source {
        Ok(values)
    } else {
        Err(Fault {
            why: Why::NoRegister,
            word: n,
        })
    }
}

fn set_by(mut values: [u32; 16], n: usize, s: &[u8], source: bool) -> Result<[u32; 16], Fault>
    ensures { result ≡ set_by values n s.now source }
{
    let size = figures::part_length(s, b'=');
    match words::register(figures::front(s, size)) {
        Some(k) => {
            let found = figures::number(figures::rest(figures::rest(s, size), 1));
            let v = found.ok_or(Fault {
                why: Why::BadValue,
                word: n,
            })?;
            values[k] = v;
            Ok(values)
        }
        None => other(values, n, source),
    }
}

fn shown_by(values: [u32; 16], n: usize, s: &[u8], source: bool) -> Result<[u32; 16], Fault>
    ensures { result ≡ shown_by values n s.now source }
{
    match words::register(s) {
        Some(_) => Ok(values),
        None => other(values, n, source),
    }
}

fn said_by(
    values: [u32; 16],
    option: Option<Awaited>,
    n: usize,
    s: &[u8],
    source: bool,
) -> Result<[u32; 16], Fault>
    ensures { result ≡ said_by values option n s.now source }
{
    match option {
        Some(Awaited::Set) => set_by(values, n, s, source),
        Some(Awaited::Show) => shown_by(values, n, s, source),
        _ => Ok(values),
    }
}

// The registers that a run begins with, as the words say, of a source or of an object text.
pub fn start(words: &[u8], source: bool) -> Result<[u32; 16], Fault>
    ensures { result ≡ start_of words.now source }
{
    let count = figures::part_count(words, 0);
    let mut values = [0u32; 16];
    for n in 1..count {
        let option = words::run_option(figures::part(words, 0, n - 1));
        values = said_by(values, option, n, figures::part(words, 0, n), source)?;
    }
    Ok(values)
}
