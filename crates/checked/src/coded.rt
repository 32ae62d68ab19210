// An amount or its refusal as one number: it goes back in a register, where an enum goes through memory.
ghost use Rattle.std.specs.Prelude.{◌≡◌};
ghost use Rattle.checked.specs.Answers.{SmallValued, valued_answer};
ghost use Rattle.checked.specs.Coded.{valued_in};

use crate::answers::Fault;
use integers::Pence;

const LIMIT: u64 = 9_000_000_000_000;

const UNREAD: u64 = 9_000_000_000_011;

pub fn code(v: Result<Pence, Fault>) -> i64
    requires { SmallValued v }
    ensures { valued_in result ≡ valued_answer v }
{
    match v {
        Ok(p) => p.0,
        Err(k) => match k {
            Fault::Unread => 9_000_000_000_011,
            Fault::Beyond => 9_000_000_000_014,
        },
    }
}

pub fn valued(x: i64) -> Result<Pence, Fault>
    ensures { valued_answer result ≡ valued_in x }
{
    let m = integers::magnitude(x);
    if m <= LIMIT {
        return Ok(Pence(x));
    }
    if m == UNREAD {
        return Err(Fault::Unread);
    }
    Err(Fault::Beyond)
}
