// A node's letter and fields.
ghost use Rattle.std.specs.Prelude.{◌≡◌, true, pos};
ghost use Rattle.std.specs.Int.Signed.{lt_z};
ghost use Rattle.nodes.specs.Letters.{letter_of_plan, letter_of_amount, letter_of_test};
ghost use Rattle.nodes.specs.Table.{RowIn, slot_at, nat_of};
ghost use Rattle.nodes.specs.declared.PlanLetter.TheVariants.{Transfer};

use nodes::{AmountLetter, TestLetter};

pub fn amount_kind(nodes: &[i64], at: usize) -> AmountLetter
    requires { RowIn nodes.now at }
    ensures { result ≡ letter_of_amount (slot_at nodes.now at 0) }
{
    nodes::amount_letter(nodes::slot(nodes, at, 0))
}

pub fn test_kind(nodes: &[i64], at: usize) -> TestLetter
    requires { RowIn nodes.now at }
    ensures { result ≡ letter_of_test (slot_at nodes.now at 0) }
{
    nodes::test_letter(nodes::slot(nodes, at, 0))
}

// Whether a delay is an open setting, which is kept as a number below zero.
pub fn is_open(nodes: &[i64], at: usize) -> bool
    requires { RowIn nodes.now at }
    ensures { result ≡ lt_z (slot_at nodes.now at 1) (pos 0) }
{
    let d = nodes::slot(nodes, at, 1);
    d < 0
}

pub fn is_transfer(nodes: &[i64], at: usize) -> bool
    requires { RowIn nodes.now at }
    ensures { result ≡ true → letter_of_plan (slot_at nodes.now at 0) ≡ Transfer }
{
    let x = nodes::slot(nodes, at, 0);
    x == 84
}

// The offset of an `O`; one below zero counts as 0.
pub fn ahead(nodes: &[i64], at: usize) -> u64
    requires { RowIn nodes.now at }
    ensures { result ≡ nat_of (slot_at nodes.now at 2) }
{
    let i = nodes::slot(nodes, at, 2);
    if i < 0 {
        return 0;
    }
    i as u64
}

// A delay as a plain number; one below zero counts as none.
pub fn months(nodes: &[i64], at: usize) -> u64
    requires { RowIn nodes.now at }
    ensures { result ≡ nat_of (slot_at nodes.now at 1) }
{
    let d = nodes::slot(nodes, at, 1);
    if d < 0 {
        return 0;
    }
    d as u64
}
