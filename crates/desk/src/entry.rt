// What came in as bytes, at the entry of either desk.

// What the bytes are at the entry, with the first unread place; where they cannot be read, 0 and the place of the fault.
#[derive(Clone, Copy)]
pub struct BytesEntry<E> {
    pub entry: E,
    pub next: usize,
    pub fault: Option<usize>,
}
