// What comes of an item.
use crate::state::{Button, State};
use benchlog::Item;
use bus::{Frame, Refusal};
use house::{Call, House};
use kinds::BenchModules;
use runs::{Reply, number_sent, perform};
use words::Modules;

// The call that an item of a log records, the place of the item, what was answered, and the frames that were sent. Of a
// push it is also known how the button was before it.
#[derive(Clone, Copy)]
pub struct Outcome<'a> {
    pub place: usize,
    pub call: Call,
    pub answer: Result<Reply, Refusal>,
    pub sent: &'a [Frame],
    pub button: Option<Button>,
}

impl<'a> Outcome<'a> {
    // Makes the call on a house. The frames sent stand in the buffer.
    pub fn of(
        house: &mut House<BenchModules>,
        modules: &Modules,
        item: &Item<'_>,
        buffer: &'a mut [Frame],
    ) -> Self {
        let call = item.call();
        let button = button_of(house, modules, call);
        let answer = perform(house, call, buffer);
        let number = number_sent(&answer);
        Outcome {
            place: item.place(),
            call,
            answer,
            sent: buffer.get(..number).unwrap_or(&[]),
            button,
        }
    }

    // Whether it was served, and nothing was sent.
    pub fn is_silent(&self) -> bool {
        self.answer.is_ok() && self.sent.is_empty()
    }
}

// How the button is that a call pushes.
fn button_of(house: &House<BenchModules>, modules: &Modules, call: Call) -> Option<Button> {
    let Call::Push {
        address,
        channel,
        ..
    } = call
    else {
        return None;
    };
    let state = State {
        house,
        address,
        kind: *modules.get(&address)?,
    };
    Some(state.button(channel.checked_sub(1)?))
}
