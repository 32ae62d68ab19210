// A value or its refusal as one number: it goes back in a register, where an enum goes through memory.
ghost use Rattle.std.specs.Prelude.{◌≡◌};
ghost use Rattle.integers.specs.Bounded.{SmallValue};
ghost use Rattle.worths.specs.Answers.{worth_answer};
ghost use Rattle.checked.specs.Evaluated.{Evaluated};
ghost use Rattle.worths.specs.Coded.{coded_worth};

use integers::Millionths;
use text::Refusal;

const LIMIT: u64 = 9_000_000_000_000_000_000;

const UNREAD: u64 = 9_000_000_000_000_000_011;

pub fn code(w: Result<Millionths, Refusal>) -> i64
    requires { Evaluated SmallValue (worth_answer w) }
    ensures { coded_worth result ≡ worth_answer w }
{
    match w {
        Ok(v) => v.0,
        Err(k) => {
            if text::number_of(k) == 11 {
                9_000_000_000_000_000_011
            } else {
                9_000_000_000_000_000_014
            }
        }
    }
}

pub fn worth(x: i64) -> Result<Millionths, Refusal>
    ensures { worth_answer result ≡ coded_worth x }
{
    let m = integers::magnitude(x);
    if m <= LIMIT {
        return Ok(Millionths(x));
    }
    if m == UNREAD {
        return Err(Refusal::Reads);
    }
    Err(Refusal::OutOfRange)
}
