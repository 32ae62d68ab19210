// Document 01's plan rolled forward three months: the pence paid from party 1 to party 2 in each, and the plan that is then held.
#![tactic(auto)]

use payments::Stepping;
use tables::Span;
use tables::given::Given;

fn print_pence(pence: i64) {
    if pence < 0 {
        io::write_all(1, b"-");
    }
    io::print_decimal(1, integers::magnitude(pence));
}

fn print_step(pence: i64, text: &[u8], bytes: usize) {
    print_pence(pence);
    io::write_all(1, b" ");
    let n = outputs::within(bytes, text);
    io::write_all(1, &text[..n]);
    io::write_all(1, b"\n");
}

fn print_refused(number: u8) {
    io::write_all(1, b"refused,");
    io::print_decimal(1, number as u64);
    io::write_all(1, b"\n");
}

// The step of the plan in the first bytes of `held`, printed; how many bytes of `out` are the plan for tomorrow.
fn roll(held: &[u8], bytes: usize, today: i64, out: &mut [u8]) -> usize {
    let n = outputs::within(bytes, held);
    let given = Given {
        days: &[2],
        span: Span { h: 0, f: 2 },
        factors: &[1000000, 990000, 980000],
        bounds: &[200],
        values: &[90, 100, 130],
    };
    let stepping = payments::step(&held[..n], &given, today, 1, 2, out);
    match stepping {
        Ok(Stepping { pence, bytes: m }) => {
            print_step(pence.0, out, m);
            m
        }
        Err(refusal) => {
            print_refused(text::number_of(refusal));
            0
        }
    }
}

fn main() {
    let plan = b"B,L,1,S,N,5000,T,1,2,W,P0,G,N,100,O,0,0,S,U,O,0,0,N,100,T,2,1,Z";
    let mut odd = [0u8; 128];
    let mut even = [0u8; 128];
    let one = roll(plan, plan.len(), 0, &mut odd);
    let two = roll(&odd, one, 1, &mut even);
    roll(&even, two, 2, &mut odd);
}
