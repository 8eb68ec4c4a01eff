// What the relay tells of its channels. Which contacts were made before and which are now stay two parameters, since they
// are asked for in both orders.
ghost use Rattle.std.specs.Prelude.{◌≡◌, ◌≤◌};
ghost use Rattle.bus.specs.Outboxes.{Room, Sends};
ghost use Rattle.relay.specs.Reports.{made, told, statuses, differ, changes, rise, risen, switched, report, lamp, lamps};
ghost use Rattle.relay.specs.Shown.{shown, all_shown};

use crate::channel::Channel;
use crate::per_channel::{BITS, PerChannel};
use bus::{Frame, Outbox};

impl Channel {
    // Sends the status of the channel with that bit, where it is wanted.
    fn tell(&self, own: u8, bit: u8, wanted: bool, out: &mut Outbox)
        requires { Room out.old 1 }
        ensures { Sends out.old out.new (told own bit wanted (shown self.now)) }
    {
        if wanted {
            let [state, high, mid, low] = self.bytes();
            out.send(Frame::new(3, own, 8, [0xFB, bit, 0, state, 0, high, mid, low]));
        }
    }
}

impl PerChannel<Channel> {
    // Which contacts are made.
    pub(crate) fn made(&self) -> PerChannel<bool>
        ensures { result ≡ made (all_shown self.now) }
    {
        self.map(|channel| channel.is_closed())
    }

    // Sends the status of each wanted channel. A loop would be no plainer: it needs a proof of what was sent so far.
    pub(crate) fn tell(&self, own: u8, wanted: PerChannel<bool>, out: &mut Outbox)
        requires { Room out.old 4 }
        ensures { Sends out.old out.new (statuses own wanted (all_shown self.now)) }
    {
        self.one.tell(own, 1, wanted.one, out);
        self.two.tell(own, 2, wanted.two, out);
        self.three.tell(own, 4, wanted.three, out);
        self.four.tell(own, 8, wanted.four, out);
    }

    // Sends what follows a change of contacts, given which were made before it; mostly there is none.
    #[tactic(auto, using(bus::proofs::Outboxes::sends_none, bus::proofs::Outboxes::sends_both, bus::proofs::Outboxes::room_left, crate::specs::Sent::four_told, crate::proofs::Unchanged::unreported))]
    pub(crate) fn report(&self, own: u8, was: PerChannel<bool>, out: &mut Outbox)
        requires { Room out.old 5 }
        ensures { Sends out.old out.new (report own was (all_shown self.now)) }
    {
        let is = self.made();
        let changed = changes(was, is);
        if changed.any() {
            self.tell(own, changed, out);
            send_switched(own, was, is, out);
        }
    }
}

// Whether a contact changed.
fn differ(was: bool, is: bool) -> bool
    ensures { result ≡ differ was is }
{
    was != is
}

// Where contacts changed.
fn changes(was: PerChannel<bool>, is: PerChannel<bool>) -> PerChannel<bool>
    ensures { result ≡ changes was is }
{
    was.zip(is).map(|(was, is)| differ(was, is))
}

// The bit where the second is and the first is not.
fn rise(bit: u8, was: bool, is: bool) -> u8
    ensures value { result ≡ rise bit was is }
    ensures bound { result ≤ bit }
{
    if is && !was { bit } else { 0 }
}

// The bits of all channels where the second is and the first is not.
fn risen(was: PerChannel<bool>, is: PerChannel<bool>) -> u8
    ensures { result ≡ risen was is }
{
    let rises = BITS
        .zip(was.zip(is))
        .map(|(bit, (was, is))| rise(bit, was, is));
    rises.one + rises.two + rises.three + rises.four
}

// Sends which contacts were made and which were broken, if any were.
fn send_switched(own: u8, was: PerChannel<bool>, is: PerChannel<bool>, out: &mut Outbox)
    requires { Room out.old 1 }
    ensures { Sends out.old out.new (switched own was is) }
{
    let on = risen(was, is);
    let off = risen(is, was);
    if on != 0 || off != 0 {
        out.send(Frame::new(0, own, 4, [0x00, on, off, 0, 0, 0, 0, 0]));
    }
}

// Sends the lamp of a button whose pair, with those bits, changed a channel.
fn send_lamp(address: u8, was: bool, is: bool, bits: Option<u8>, out: &mut Outbox)
    requires { Room out.old 1 }
    ensures { Sends out.old out.new (lamp address was is bits) }
{
    if let Some(bits) = bits
        && differ(was, is)
    {
        let command = if is { 0xF6 } else { 0xF5 };
        out.send(Frame::new(3, address, 2, [command, bits, 0, 0, 0, 0, 0, 0]));
    }
}

// Sends the lamps of the buttons that changed channels; a loop would be no plainer here either.
pub(crate) fn send_lamps(
    address: u8,
    was: PerChannel<bool>,
    is: PerChannel<bool>,
    bits: PerChannel<Option<u8>>,
    out: &mut Outbox,
)
    requires { Room out.old 4 }
    ensures { Sends out.old out.new (lamps address was is bits) }
{
    send_lamp(address, was.one, is.one, bits.one, out);
    send_lamp(address, was.two, is.two, bits.two, out);
    send_lamp(address, was.three, is.three, bits.three, out);
    send_lamp(address, was.four, is.four, bits.four, out);
}
