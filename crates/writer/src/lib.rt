// From the node table to text: counts the bytes, then writes them.
#![tactic(auto)]

ghost use Rattle.std.specs.Prelude.{◌≡◌, ◌*◌, ◌≤◌, length};
ghost use Rattle.writer.specs.Answers.{write_call, written_answer};
ghost use Rattle.writer.specs.Put.{Put};
ghost use Rattle.writer.specs.Written.{written};
ghost use Rattle.text.specs.declared.Refusal.TheVariants as refusal;

use text::Refusal;

pub mod digits;
pub mod parts;
mod rows;

#[derive(Clone, Copy)]
pub struct NoRoom;

// Document 01's 13.
impl From<NoRoom> for Refusal {
    ghost from_gives = { λ _ k. k ≡ refusal.NoRoom };

    fn from(_no_room: NoRoom) -> Refusal {
        Refusal::NoRoom
    }
}

// The bytes of the text of the first `count` rows: each row with a comma, but for one comma.
pub fn text_length(nodes: &[i64], count: usize) -> usize
    requires { (5 * count ≤ length nodes.now) × (count ≤ 512) }
    ensures { result ≡ length (written count nodes.now) }
{
    if count == 0 {
        return 0;
    }
    let mut sum: usize = 0;
    for i in 0..count {
        sum += 1 + rows::row_length(nodes, 5 * i);
    }
    sum - 1
}

// Writes the text of the first `count` rows from the first byte on, a comma in front of each row but the first.
fn put_text(nodes: &[i64], count: usize, out: &mut [u8]) -> usize
    requires { (5 * count ≤ length nodes.now) × (length (written count nodes.now) ≤ length out.old) }
    ensures { Put out.old out.new 0 result (written count nodes.now) }
{
    let mut place: usize = 0;
    for i in 0..count {
        if 0 < i {
            out[place] = b',';
            place += 1;
        }
        place = rows::put_row(nodes, 5 * i, out, place);
    }
    place
}

// The text of the first `count` rows into `out`, or no byte of it where it does not fit. It has at most `most` bytes: a buffer that holds so many needs no count.
pub fn write_text(nodes: &[i64], count: usize, most: usize, out: &mut [u8]) -> Result<usize, NoRoom>
    requires { (5 * count ≤ length nodes.now) × (count ≤ 512) × (length (written count nodes.now) ≤ most) }
    ensures { (out.new ≡ (write_call count nodes.now out.old).buffer)
        × (written_answer result ≡ (write_call count nodes.now out.old).answer) }
{
    if most <= out.len() {
        let end = put_text(nodes, count, out);
        return Ok(end);
    }
    let need = text_length(nodes, count);
    if out.len() < need {
        Err(NoRoom)
    } else {
        let end = put_text(nodes, count, out);
        Ok(end)
    }
}
