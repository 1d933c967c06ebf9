// Tables of words: a table is a text, and its entries, from 0, each end with a newline. An inner room of the programs: its functions are no public operations.
ghost use Rattle.std.specs.Prelude.{◌≡◌, ◌-◌, eqb};
ghost use Rattle.lists.specs.Choice.{pick};
ghost use Rattle.printing.specs.Table.{entries_from, line_of, entry_of};

// How many entries are still to be passed when a byte was passed.
fn entries_left(left: usize, byte: u8) -> usize
    ensures { result ≡ pick (eqb byte 10) (left - 1) left }
{
    if byte == b'\n' {
        return left.saturating_sub(1);
    }
    left
}

// The table from an entry on. Behind the last entry nothing stands.
#[tactic(auto, using(lists::proofs::Parts::tail_of_lem, crate::proofs::TableLaws::entries_first, crate::proofs::TableLaws::entries_step, crate::proofs::TableLaws::entries_end))]
fn entries_from(table: &[u8], entry: usize) -> &[u8]
    ensures { result.now ≡ entries_from table.now entry }
{
    let mut left = entry;
    for (i, byte) in table.iter().enumerate() {
        if left == 0 {
            return &table[i..];
        }
        left = entries_left(left, *byte);
    }
    &table[table.len()..]
}

// What stands in front of the first newline: all, where there is none.
#[tactic(auto, using(crate::proofs::TableLaws::line_hit, crate::proofs::TableLaws::line_miss, crate::proofs::TableLaws::line_end))]
fn first_line(text: &[u8]) -> &[u8]
    ensures { result.now ≡ line_of text.now }
{
    for (i, byte) in text.iter().enumerate() {
        if *byte == b'\n' {
            return &text[..i];
        }
    }
    text
}

// An entry of a table, without its newline; behind the last entry nothing.
pub fn entry_of(table: &[u8], entry: usize) -> &[u8]
    ensures { result.now ≡ entry_of table.now entry }
{
    first_line(entries_from(table, entry))
}
