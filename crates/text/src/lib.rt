// Reading a plan's or a payoff's text into the node table.
#![tactic(auto)]

ghost use Rattle.std.specs.Prelude.{◌≡◌, length};
ghost use Rattle.language.specs.Text.Letters.{plan_form, payoff_form};
ghost use Rattle.language.specs.Text.Reader.{text_as_read};
ghost use Rattle.text.specs.Letters.{form_of};
ghost use Rattle.text.specs.ReadInto.{CountIs, ReadInto};
ghost use Rattle.text.specs.Refusals.{number_of};
ghost use Rattle.text.specs.Room.{Roomy};

mod edges;
mod letters;
pub mod opens;
mod quick;
pub mod room;
mod trees;
mod whole;

use letters::TextForm;
use whole::read_rows;

#[derive(Clone, Copy)]
pub enum Refusal {
    TooLong,
    NotOfForm,
    TooManyNodes,
    TooDeep,
    WrongKind,
    Magnitude,
    NotInTime,
    Settings,
    Table,
    Length,
    Reads,
    Caller,
    NoRoom,
    OutOfRange,
}

// Document 01's number of a refusal.
impl From<Refusal> for u8 {
    ghost from_gives = { λ k n. n ≡ number_of k };

    fn from(refusal: Refusal) -> u8 {
        match refusal {
            Refusal::TooLong => 1,
            Refusal::NotOfForm => 2,
            Refusal::TooManyNodes => 3,
            Refusal::TooDeep => 4,
            Refusal::WrongKind => 5,
            Refusal::Magnitude => 6,
            Refusal::NotInTime => 7,
            Refusal::Settings => 8,
            Refusal::Table => 9,
            Refusal::Length => 10,
            Refusal::Reads => 11,
            Refusal::Caller => 12,
            Refusal::NoRoom => 13,
            Refusal::OutOfRange => 14,
        }
    }
}

pub fn number_of(refusal: Refusal) -> u8
    ensures { result ≡ number_of refusal }
{
    u8::from(refusal)
}

fn longest(form: TextForm) -> usize
    ensures { result ≡ (form_of form).bytes }
{
    match form {
        TextForm::Plan => 8704,
        TextForm::Payoff => 53760,
    }
}

fn read_text(form: TextForm, text: &[u8], nodes: &mut [i64]) -> Result<usize, Refusal>
    requires { Roomy text.now nodes.old }
    ensures is { ReadInto (form_of form) (text_as_read (form_of form) text.now) nodes.new result }
    ensures kept { length nodes.new ≡ length nodes.old }
{
    if longest(form) < text.len() {
        return Err(Refusal::TooLong);
    }
    let read = read_rows(form, text, nodes)?;
    if read.next <= text.len() {
        return Err(Refusal::NotOfForm);
    }
    Ok(read.count)
}

pub fn read_plan(text: &[u8], nodes: &mut [i64]) -> Result<usize, Refusal>
    requires { Roomy text.now nodes.old }
    ensures is { ReadInto plan_form (text_as_read plan_form text.now) nodes.new result }
    ensures kept { length nodes.new ≡ length nodes.old }
{
    read_text(TextForm::Plan, text, nodes)
}

pub fn read_payoff(text: &[u8], nodes: &mut [i64]) -> Result<usize, Refusal>
    requires { Roomy text.now nodes.old }
    ensures is { ReadInto payoff_form (text_as_read payoff_form text.now) nodes.new result }
    ensures kept { length nodes.new ≡ length nodes.old }
{
    read_text(TextForm::Payoff, text, nodes)
}

// The number of a plan's nodes: a caller with a table of its own.
pub fn plan_nodes(text: &[u8]) -> Result<usize, Refusal>
    ensures { CountIs (text_as_read plan_form text.now) result }
{
    let mut nodes = [0i64; 2560];
    read_plan(text, &mut nodes)
}
