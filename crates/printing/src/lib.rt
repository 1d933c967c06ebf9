// Printing: a page of bytes and the place where the next one goes. What has no room on a page is left out, so that nothing is asked of a caller, and no heap is needed
// for what is printed. An inner room of the programs: its functions are no public operations.
#![tactic(auto)]

mod table;

ghost use Rattle.std.specs.Prelude.{◌≡◌};
ghost use Rattle.printing.specs.Page.{blank_page, placed_at, room_for, text_put, part_of};
ghost use Rattle.printing.specs.Table.{entry_of};

pub use table::entry_of;

// How many bytes a page has: ten rows of the story, and more than the longest line of a replay.
pub const SIZE: usize = 1040;

#[derive(Clone, Copy)]
pub struct Page {
    pub bytes: [u8; SIZE],
    pub at: usize,
}

// A page of blanks, to be filled from its first byte on.
#[tactic(auto, unfolding(crate::specs::Page::blank_page))]
pub fn blank_page() -> Page
    ensures { result ≡ blank_page }
{
    Page {
        bytes: [b' '; SIZE],
        at: 0,
    }
}

// How many of so many bytes have room behind a place.
fn room_for(at: usize, length: usize) -> usize
    ensures { result ≡ room_for at length }
{
    length.min(SIZE.saturating_sub(at))
}

impl Page {
    // The page is filled from another place on.
    #[tactic(auto, unfolding(crate::specs::Page::placed_at))]
    pub fn go_to(&mut self, at: usize)
        ensures { self.new ≡ placed_at self.old at }
    {
        self.at = at;
    }

    // Bytes as they are.
    #[tactic(auto, unfolding(crate::specs::Page::text_put))]
    pub fn put_text(&mut self, text: &[u8])
        ensures { self.new ≡ text_put self.old text.now }
    {
        let count = room_for(self.at, text.len());
        if 0 < count {
            self.bytes[self.at..self.at + count].copy_from_slice(&text[..count]);
            self.at += count;
        }
    }

    // An entry of a table, without its newline.
    pub fn put_entry(&mut self, table: &[u8], entry: usize)
        ensures { self.new ≡ text_put self.old (entry_of table.now entry) }
    {
        self.put_text(entry_of(table, entry));
    }

    // What stands on the page in front of its place.
    pub fn text(&self) -> &[u8]
        ensures { result.now ≡ part_of self.now.bytes 0 self.now.at }
    {
        part(&self.bytes, 0, self.at)
    }
}

// The bytes from a place up to another. Places out of order or past the end are no bytes.
#[tactic(auto, unfolding(crate::specs::Page::part_of))]
pub fn part(bytes: &[u8], start: usize, behind: usize) -> &[u8]
    ensures { result.now ≡ part_of bytes.now start behind }
{
    bytes.get(start..behind).unwrap_or(&[])
}
