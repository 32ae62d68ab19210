// What a plan may read: the offsets that can be read from a node, and the labels of a table.
ghost use Rattle.std.specs.Prelude.{◌≡◌, ◌-ℤ◌};
ghost use Rattle.integers.specs.Bounded.{Small};
ghost use Rattle.nodes.specs.Table.{RowIn};
ghost use Rattle.measures.specs.Rows.{row_reads};
ghost use Rattle.measures.specs.Spans.{window_for};

use integers::Month;

// The offsets that can be read, and how many labels.
#[derive(Clone, Copy)]
pub struct Window {
    pub low: i64,
    pub high: i64,
    pub labels: usize,
}

// What is read at an offset from a node is read from d months later at an offset d less.
pub fn nearer(offset: Month, d: Month) -> Month
    requires { Small offset.0 × Small d.0 }
    ensures { result.0 ≡ offset.0 -ℤ d.0 }
{
    Month(offset.0 - d.0)
}

// Offsets and labels as one window, for the loop over rows.
pub fn window_of(low: Month, high: Month, labels: usize) -> Window
    ensures { result ≡ window_for low.0 high.0 labels }
{
    Window {
        low: low.0,
        high: high.0,
        labels: labels,
    }
}

pub fn row_reads(nodes: &[i64], at: usize, w: Window) -> bool
    requires { RowIn nodes.now at }
    ensures { result ≡ row_reads w nodes.now at }
{
    if nodes::is_index(nodes, at) {
        let l = nodes::label(nodes, at);
        let i = nodes::offset(nodes, at);
        if l < w.labels {
            return (w.low <= i.0) & (i.0 <= w.high);
        }
        return false;
    }
    true
}
