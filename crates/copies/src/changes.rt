// Rows of a plan moved down in their table, each changed.
ghost use Rattle.std.specs.Prelude.{◌≡◌, ◌*◌, ◌+◌, ◌≤◌, ℤ, List, length};
ghost use Rattle.copies.specs.Appended.{Appended};
ghost use Rattle.copies.specs.Copied.{Copied};
ghost use Rattle.nodes.specs.Pass.{row_from};
ghost use Rattle.nodes.specs.Table.{RowIn};

// What becomes of each row: another row.
pub trait Change {
    ghost can_change: { Self → Type 0 };

    ghost changed: { Self → List ℤ → List ℤ };

    // Writes what becomes of row `at` as row `count`.
    fn put(&self, nodes: &mut [i64], count: usize, at: usize) -> usize
        requires { can_change self.now × RowIn nodes.old at × (count ≤ at) }
        ensures counted { result ≡ count + 1 }
        ensures added { Appended nodes.old nodes.new count result (changed self.now (row_from (at * 5) nodes.old)) };
}

// The rows from node `from` up to node `to`, each changed.
pub fn copy_rows<C: Change>(
    nodes: &mut [i64],
    change: &C,
    count: usize,
    from: usize,
    to: usize,
) -> usize
    requires { C.can_change change.now × (from ≤ to) × (to ≤ 512) × (5 * to ≤ length nodes.old) × (count ≤ from) }
    ensures { Copied (C.changed change.now) nodes.old nodes.new from to count result }
{
    let mut next = count;
    for at in from..to {
        next = change.put(nodes, next, at);
    }
    next
}
