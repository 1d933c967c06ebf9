// What the teller says. docs/STORY.md has each line.
use crate::row::print_line;
use printing::entry_of;
use std::io;
use std::io::Write;

// A line of the narration, from 1.
pub fn say<W: Write>(out: &mut W, number: usize) -> io::Result<()> {
    print_line(
        out,
        entry_of(
            b"
* The house's line is busy. The clerk asks to be rung back, and says that it can keep the request.
* The line clears, and the house rings back. But another caller is faster than the clerk.
* Busy again. What has each end kept?
* The line clears once more.
* The clerk waits for a ring-back that nobody will make, until T2 runs out.
* The house has rung back once more. User A accepts, and this time the call gets through.
* The request is accepted at both ends. The line clears and the house rings back.
* At the same moment User A cancels: the two messages pass each other.
* Each end now hears what the other had sent. The ring-back that came too late gets a reply.
* Two requests, #34 and #12, both rung back. User A accepts both, and the second house withdraws.
* A late reply for #12. Request #34 stands in Ringout, the very state that such a reply is for.
* Two forged replies: one for a request that nobody made, and a second result for #34.
* Nothing has touched #34: its call goes through.
* The connection falls while the request waits. The house's end sees it, the clerk's not yet.
* The line clears. The house rings back all the same, over a new connection.
* Now the clerk's end sees it too. User A accepts, and the call gets through.
* Two requests that look alike: one line, one service, no identifier. They are no duplicates.
* A stray ccCancel arrives. The host knows that it belongs to neither, and names no place.
* The line clears and the house rings back the first. The host knows that too.
* The same stray ccCancel once more. This time the host guesses, and guesses the second.
* The first goes on. Its ccRingout has no name either: both records fit, one has been rung back.
* The house rings back the second. It has no record here any more, and its caller was told \"failed\".
",
            number,
        ),
    )
}

// A line around the scenes: the story's opening from 4 on, and for each scene from 8 on its title, its opening and the two lines of its lesson.
fn frame<W: Write>(out: &mut W, number: usize) -> io::Result<()> {
    print_line(
        out,
        entry_of(
            b"
=============================================================================================================
CLOCK    CLERK'S DESK (User A)         |               THE WIRES              | LINE DESK (User B)
---------------------------------------+--------------------------------------+------------------------------
TOLLHERRING: THREE LESSONS IN SIX SCENES
A clerk finds a house's line busy and asks to be rung back. #34 is the request for a group of 34.
A message is sent: o---...   It arrives: ...--->   No desk sent it: ...---?   Its carrier is in [ ].
States, timers, notices and refusals are the desks' own. A scene says which messages it forges.
Scene 1. The evening as it went wrong
The house's end stores no keep; its answer \"keep 1\" is forged here. Each end alone looks well.
LESSON 1. Two good ends are not yet a good pair: one believed in a request that the other had
deleted. No ring-back came, the clerk split the group, and 34 guests slept in two houses.
Scene 2. The evening as it goes now
The same evening and the same inputs; the house's end now stores what it answers.
LESSON 1, LEARNED. What one end holds as kept, the other has stored. The ring-back came, and the 34
slept in one house.
Scene 3. A cancel meets a ring-back
User A no longer wants the call, just when the house rings back.
LESSON 2. A cancel does meet a ring-back on the wire. A late message finds no record, is refused
and changes nothing; and both ends have let the request go.
Scene 4. A stray reply
Replies arrive that no request is waiting for, at a desk that holds a live request.
LESSON 3. A stray reply must never touch the nearest request. Different identifiers never meet,
however alike the two requests are.
Scene 5. The connection falls
Both ends keep a connection for the request, and it falls. Nobody cancels anything.
LESSON 1, ONCE MORE. A connection is not the request. What both ends have stored outlives it, and
whichever end sees the fall first, the other takes its messages.
Scene 6. Two callers without a name
An end that sends no identifier and withholds its number: #-- is all that a message says.
LESSON 3, WITHOUT A NAME. Where no identifier tells whose a message is, the host has to know it.
A right place kept the stray off. A guess let it touch the nearest request, and a caller was lost.
",
            number,
        ),
    )
}

pub fn open_story<W: Write>(out: &mut W) -> io::Result<()> {
    frame(out, 4)?;
    frame(out, 5)?;
    frame(out, 6)?;
    frame(out, 7)?;
    frame(out, 0)
}

// The title between two rules, the opening, and the head of the ladder.
pub fn open_scene<W: Write>(out: &mut W, scene: u8) -> io::Result<()> {
    let title = 4 + 4 * (scene as usize);
    frame(out, 1)?;
    frame(out, title)?;
    frame(out, 1)?;
    frame(out, title + 1)?;
    frame(out, 0)?;
    frame(out, 2)?;
    frame(out, 3)
}

// The lesson below the ladder.
pub fn close_scene<W: Write>(out: &mut W, scene: u8) -> io::Result<()> {
    let title = 4 + 4 * (scene as usize);
    frame(out, 3)?;
    frame(out, title + 2)?;
    frame(out, title + 3)?;
    frame(out, 0)
}
