// The story: six scenes on the proved desks, printed as a ladder (docs/STORY.md). It reads nothing and tells the same every time.
#![tactic(auto)]

mod clerk_end;
mod end;
mod line_end;
mod play;
mod records;
mod requests;
mod script;
mod wire;
mod world;

use crate::play::play_scene;
use ladder::narration::open_story;
use std::io;

fn main(rt: HostRuntime) -> io::Result<()> {
    let mut out = io::writer(&rt);
    open_story(&mut out)?;
    for scene in 1..=6 {
        play_scene(&mut out, scene)?;
    }
    Ok(())
}
