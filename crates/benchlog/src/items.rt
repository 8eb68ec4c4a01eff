// What an item records.
ghost use Rattle.std.specs.Prelude.{◌≡◌, length};
ghost use Rattle.bus.specs.Frames.{of_body};
ghost use Rattle.benchlog.specs.Items.{shown_item, recorded, bench_places, pushed};

use crate::item::Item;
use crate::kind::ItemKind;
use bus::Frame;
use house::Call;

// How many places a bench's buffer for frames has: nine for each of three seats.
pub(crate) const PLACES: usize = 27;

// The frame that the body of a put tells.
fn frame_in(body: &[u8]) -> Frame
    requires { length body.now ≡ 12 }
    ensures { result ≡ of_body body.now }
{
    let mut twelve = [0; 12];
    twelve.copy_from_slice(body);
    Frame::from(twelve)
}

// The push that a body tells.
fn push_in(body: &[u8]) -> Call
    requires { length body.now ≡ 3 }
    ensures { result ≡ pushed body.now }
{
    Call::Push {
        address: body[0],
        channel: body[1],
        edge: body[2],
        places: PLACES,
    }
}

impl Item<'_> {
    // Its kind.
    pub fn kind(&self) -> ItemKind
        ensures { result ≡ (shown_item self.now).kind }
    {
        self.kind
    }

    // The place of its kind byte in the log, counted from 0.
    pub fn place(&self) -> usize
        ensures { result ≡ (shown_item self.now).place }
    {
        self.place
    }

    // The call that it records.
    pub fn call(&self) -> Call
        ensures { result ≡ recorded (shown_item self.now) }
    {
        match self.kind {
            ItemKind::Put => Call::Put(frame_in(self.body)),
            ItemKind::Second => Call::Second { places: PLACES },
            ItemKind::Push => push_in(self.body),
            ItemKind::Step => Call::Step { places: PLACES },
            ItemKind::Clear => Call::Clear,
        }
    }
}

impl<'a> Item<'a> {
    // Its body, a part of the log.
    pub fn body(&self) -> &'a [u8]
        ensures { result.now ≡ (shown_item self.now).body }
    {
        self.body
    }
}
