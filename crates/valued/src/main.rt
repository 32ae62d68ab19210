// Document 01's plan compiled to its payoff, the payoff cut, and what both are worth to the pair 1, 2 in millionths of a penny.
#![tactic(auto)]

use tables::Span;
use tables::given::Given;
use text::Refusal;

fn print_refused(number: u8) {
    io::write_all(1, b"refused,");
    io::print_decimal(1, number as u64);
    io::write_all(1, b"\n");
}

// The text that a call wrote, printed; how many bytes it has.
fn print_text(writing: Result<usize, Refusal>, text: &[u8]) -> usize {
    match writing {
        Ok(bytes) => {
            let n = outputs::within(bytes, text);
            io::write_all(1, &text[..n]);
            io::write_all(1, b"\n");
            n
        }
        Err(refusal) => {
            print_refused(text::number_of(refusal));
            0
        }
    }
}

fn compile(plan: &[u8], out: &mut [u8]) -> usize {
    let writing = payoff::compile(plan, out);
    print_text(writing, out)
}

fn cut(uncut: &[u8], bytes: usize, out: &mut [u8]) -> usize {
    let n = outputs::within(bytes, uncut);
    let writing = payoff::cut(&uncut[..n], out);
    print_text(writing, out)
}

fn print_value(value: i64) {
    if value < 0 {
        io::write_all(1, b"-");
    }
    io::print_decimal(1, integers::magnitude(value));
    io::write_all(1, b"\n");
}

// What the payoff in the first bytes is worth, `month` being the month now.
fn evaluate(text: &[u8], bytes: usize, month: i64) {
    let n = outputs::within(bytes, text);
    let given = Given {
        days: &[2],
        span: Span { h: 0, f: 2 },
        factors: &[1000000, 990000, 980000],
        bounds: &[200],
        values: &[90, 100, 130],
    };
    let evaluating = payoff::evaluate(&text[..n], &given, month, 1, 2);
    match evaluating {
        Ok(value) => print_value(value.0),
        Err(refusal) => print_refused(text::number_of(refusal)),
    }
}

fn main() {
    let plan = b"B,L,1,S,N,5000,T,1,2,W,P0,G,N,100,O,0,0,S,U,O,0,0,N,100,T,2,1,Z";
    let mut uncut = [0u8; 128];
    let mut cuts = [0u8; 128];
    let whole = compile(plan, &mut uncut);
    let rest = cut(&uncut, whole, &mut cuts);
    evaluate(&cuts, rest, 0);
    evaluate(&cuts, rest, 1);
    evaluate(&cuts, rest, 2);
    evaluate(&uncut, whole, 0);
}
