// The outbox: where the frames that modules send are appended, in the order in which they are sent.
ghost use Rattle.std.specs.Prelude.{◌≡◌, ◌≤◌, [], ◌∷◌, IfOk};
ghost use Rattle.bus.specs.Outboxes.{frames, room, Room, Sends};

use crate::frame::Frame;
use std::alloc::{AllocError, Global};

// Its owner decides how many frames it can take when making it, and sending does not allocate. Clauses read it by two
// words, its frames and its room; a model would be a record of the same two.
#[derive(Drop)]
pub struct Outbox {
    sent: Vec<Frame>,
}

impl Outbox {
    // An empty outbox that takes at least `places` frames.
    pub fn new(heap: Global, places: usize) -> Result<Self, AllocError>
        ensures { IfOk result (λ o. (frames o ≡ []) × (places ≤ room o)) }
    {
        let sent = Vec::with_capacity(heap, places)?;
        Ok(Outbox { sent })
    }

    // Appends a frame; the owner has left room for it.
    pub fn send(&mut self, frame: Frame)
        requires { Room self.old 1 }
        ensures { Sends self.old self.new (frame ∷ []) }
    {
        self.sent.push_reserved(frame);
    }

    // What was sent since the outbox was last emptied, oldest first.
    pub fn frames(&self) -> &[Frame]
        ensures { result.now ≡ frames self.now }
    {
        self.sent.as_slice()
    }

    // Forgets what was sent; the places stay.
    pub fn empty(&mut self)
        ensures frames { frames self.new ≡ [] }
        ensures room { room self.new ≡ room self.old }
    {
        self.sent.clear();
    }
}
