// What a payoff's worth is asked for.
ghost use Rattle.std.specs.Prelude.{T};
ghost use Rattle.std.specs.Int.Signed.{non_neg};
ghost use Rattle.pays.specs.Parties.{PairIn};
ghost use Rattle.worths.specs.Ranges.{Payable};

use checked::lent::Lent;
use integers::Month;
use pays::Pair;

// What its amounts and tests read, the discount factor of each month, the month from which a cut leaf counts, and the pair.
#[derive(Clone, Copy)]
pub struct Asked<'a> {
    pub lent: Lent<'a>,
    pub factors: &'a [i64],
    pub start: Month,
    pub pair: Pair,
    pub ghost payable: { Payable lent.span.f factors.now },
    pub ghost known: { T (non_neg start.0) },
    pub ghost parties: { PairIn pair.p pair.q },
}
