// The wires, and what an end sends and hears: messages as bytes.
use desk::letter::Letter;
use printing::{Page, blank_page, part};

// A wire is the bytes of all messages that were sent, one behind the other, of which those up to a place have been heard.
#[derive(Clone, Copy)]
pub struct Wire {
    sent: Page,
    heard: usize,
}

pub fn quiet() -> Wire {
    Wire {
        sent: blank_page(),
        heard: 0,
    }
}

// How many bytes stand behind the first message.
fn bytes_behind(s: &[u8]) -> usize {
    taken::rest(s, reader::read(s)).len()
}

impl Wire {
    // What an end sends goes onto the wire.
    pub fn send(&mut self, message: &[u8]) {
        self.sent.put_text(message);
    }

    // The first message that was not heard before, where the end listens, and else no bytes; nothing, where it listens and none is under way.
    pub fn hear(&mut self, listens: bool) -> Option<&[u8]> {
        if !listens {
            return Some(b"");
        }
        let sent = self.sent.text();
        let start = self.heard;
        let left = bytes_behind(part(sent, start, sent.len()));
        self.heard = sent.len().saturating_sub(left);
        let message = part(sent, start, self.heard);
        if message.is_empty() {
            return None;
        }
        Some(message)
    }
}

// A message that is sent, as bytes: none of them, where nothing is. The writer is lent a buffer and answers how many bytes it wrote (`told::send`): no heap.
#[derive(Clone, Copy)]
pub struct Sent {
    pub bytes: [u8; 64],
    pub length: usize,
}

pub fn sent_of(sending: Option<Letter>) -> Sent {
    let mut bytes = [0u8; 64];
    match told::send(&mut bytes, 0, sending) {
        Err(_) => Sent { bytes, length: 0 },
        Ok(length) => Sent { bytes, length },
    }
}

// The wrong end of scene 1, simulated outside the desks: the line desk is started without keeping requests, and its end makes the field keep of each result 1 all
// the same. So it promised, and did not store.
pub fn promised(wrong: bool, sent: Sent) -> Sent {
    let mut told = sent;
    if wrong && told.bytes[0] == 3 {
        told.bytes[19] = 1;
    }
    told
}
