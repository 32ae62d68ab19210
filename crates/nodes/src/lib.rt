// The node table: its rows, its links, and the letters that stand in it.
#![tactic(auto)]

ghost use Rattle.std.specs.Prelude.{◌≡◌, [], ◌∷◌, ◌*◌, ◌+◌, ◌<◌, ◌≤◌, T, length, pos};
ghost use Rattle.std.proofs.lemmas.List.Edits.{sets};
ghost use Rattle.std.specs.Int.Signed.{non_neg};
ghost use Rattle.integers.specs.Equal.{eq_z};
ghost use Rattle.language.specs.Text.Number.{byte};
ghost use Rattle.nodes.specs.Table.{RowIn, slot_at, link_at, nat_of};
ghost use Rattle.nodes.specs.Letters.{letter_of_plan, letter_of_payoff, letter_of_amount, letter_of_test};

use integers::Month;

#[derive(Clone, Copy, PartialEq, Eq)]
pub enum PlanLetter {
    Nothing,
    Transfer,
    Scale,
    Later,
    Both,
    Within,
    NoPlan,
}

#[derive(Clone, Copy, PartialEq, Eq)]
pub enum PayoffLetter {
    Nil,
    Uncut,
    Cut,
    Times,
    Plus,
    Await,
    NoPayoff,
}

#[derive(Clone, Copy, PartialEq, Eq)]
pub enum AmountLetter {
    Number,
    Index,
    Sum,
    Difference,
    Product,
    Quotient,
    Choose,
    NoAmount,
}

#[derive(Clone, Copy, PartialEq, Eq)]
pub enum TestLetter {
    Less,
    Equal,
    Conjunction,
    Disjunction,
    Negation,
    NoTest,
}

// One number of a node's row.
pub fn slot(nodes: &[i64], at: usize, k: usize) -> i64
    requires { RowIn nodes.now at × (k < 5) }
    ensures { result ≡ slot_at nodes.now at k }
{
    nodes[at * 5 + k]
}

// Where a node's second or third child stands.
pub fn link(nodes: &[i64], at: usize, k: usize) -> usize
    requires { RowIn nodes.now at × (k < 5) × T (non_neg (slot_at nodes.now at k)) }
    ensures { result ≡ link_at nodes.now at k }
{
    let x = slot(nodes, at, k);
    at + x as usize
}

// Which letter of a plan a row has.
pub fn plan_kind(nodes: &[i64], at: usize) -> PlanLetter
    requires { RowIn nodes.now at }
    ensures { result ≡ letter_of_plan (slot_at nodes.now at 0) }
{
    PlanLetter::from(slot(nodes, at, 0))
}

// Whether a row is that of an `O`.
pub fn is_index(nodes: &[i64], at: usize) -> bool
    requires { RowIn nodes.now at }
    ensures { result ≡ eq_z (slot_at nodes.now at 0) (pos (byte "O")) }
{
    let x = slot(nodes, at, 0);
    x == 79
}

// The delay of an `L` or a `W`; one below zero counts as none.
pub fn delay(nodes: &[i64], at: usize) -> Month
    requires { RowIn nodes.now at }
    ensures { result.0 ≡ pos (nat_of (slot_at nodes.now at 1)) }
{
    let d = slot(nodes, at, 1);
    if d < 0 {
        return Month(0);
    }
    Month(d)
}

// The label of an `O`; one below zero counts as 0.
pub fn label(nodes: &[i64], at: usize) -> usize
    requires { RowIn nodes.now at }
    ensures { result ≡ nat_of (slot_at nodes.now at 1) }
{
    let l = slot(nodes, at, 1);
    if l < 0 {
        return 0;
    }
    l as usize
}

// The offset of an `O`.
pub fn offset(nodes: &[i64], at: usize) -> Month
    requires { RowIn nodes.now at }
    ensures { result.0 ≡ slot_at nodes.now at 2 }
{
    Month(slot(nodes, at, 2))
}

// A node's row, all five numbers of it.
pub fn put_row(nodes: &mut [i64], i: usize, letter: i64, a: i64, b: i64, c: i64, d: i64)
    requires { 5 * i + 5 ≤ length nodes.old }
    ensures { nodes.new ≡ sets nodes.old (5 * i) (letter ∷ a ∷ b ∷ c ∷ d ∷ []) }
{
    nodes[5 * i] = letter;
    nodes[5 * i + 1] = a;
    nodes[5 * i + 2] = b;
    nodes[5 * i + 3] = c;
    nodes[5 * i + 4] = d;
}

impl From<i64> for PlanLetter {
    ghost from_gives = { λ x r. r ≡ letter_of_plan x };

    fn from(x: i64) -> PlanLetter {
        match x {
            90 => PlanLetter::Nothing,
            84 => PlanLetter::Transfer,
            83 => PlanLetter::Scale,
            76 => PlanLetter::Later,
            66 => PlanLetter::Both,
            87 => PlanLetter::Within,
            _ => PlanLetter::NoPlan,
        }
    }
}

pub fn plan_letter(x: i64) -> PlanLetter
    ensures { result ≡ letter_of_plan x }
{
    PlanLetter::from(x)
}

impl From<i64> for PayoffLetter {
    ghost from_gives = { λ x r. r ≡ letter_of_payoff x };

    fn from(x: i64) -> PayoffLetter {
        match x {
            90 => PayoffLetter::Nil,
            70 => PayoffLetter::Uncut,
            72 => PayoffLetter::Cut,
            83 => PayoffLetter::Times,
            66 => PayoffLetter::Plus,
            87 => PayoffLetter::Await,
            _ => PayoffLetter::NoPayoff,
        }
    }
}

pub fn payoff_letter(x: i64) -> PayoffLetter
    ensures { result ≡ letter_of_payoff x }
{
    PayoffLetter::from(x)
}

impl From<i64> for AmountLetter {
    ghost from_gives = { λ x r. r ≡ letter_of_amount x };

    fn from(x: i64) -> AmountLetter {
        match x {
            78 => AmountLetter::Number,
            79 => AmountLetter::Index,
            65 => AmountLetter::Sum,
            85 => AmountLetter::Difference,
            75 => AmountLetter::Product,
            81 => AmountLetter::Quotient,
            73 => AmountLetter::Choose,
            _ => AmountLetter::NoAmount,
        }
    }
}

pub fn amount_letter(x: i64) -> AmountLetter
    ensures { result ≡ letter_of_amount x }
{
    AmountLetter::from(x)
}

impl From<i64> for TestLetter {
    ghost from_gives = { λ x r. r ≡ letter_of_test x };

    fn from(x: i64) -> TestLetter {
        match x {
            71 => TestLetter::Less,
            69 => TestLetter::Equal,
            89 => TestLetter::Conjunction,
            86 => TestLetter::Disjunction,
            82 => TestLetter::Negation,
            _ => TestLetter::NoTest,
        }
    }
}

pub fn test_letter(x: i64) -> TestLetter
    ensures { result ≡ letter_of_test x }
{
    TestLetter::from(x)
}
