// What a panel does.
ghost use Rattle.std.specs.Prelude.{replicate, refl};
ghost use Rattle.bus.specs.Outboxes.{Room, Sends};
ghost use Rattle.panel.specs.Panels.{design, content, status_sent, type_sent};
ghost use Rattle.std.proofs.Common.{rules};

use crate::panel::{CELLS, Panel, PanelSetup};
use bus::{Frame, Outbox};
use module::{Buttons, Lamps, Memory, Module, ModuleKind};
use station::Edge;

impl Panel {
    // Answers a status request.
    fn answer_status(&self, own: u8, frame: &Frame, out: &mut Outbox)
        requires { Room out.old 1 }
        ensures { Sends out.old out.new (status_sent own self.now.lamps self.now.buttons.pressed frame.now) }
    {
        if frame.is_command(0xFA, 2) {
            let Lamps { on, slow, fast } = self.lamps;
            let bytes = [0xED, self.buttons.pressed, on, slow, fast, 0, 0, 0];
            out.send(Frame::new(3, own, 6, bytes));
        }
    }

    // Answers a type request.
    fn answer_type(&self, own: u8, frame: &Frame, out: &mut Outbox)
        requires { Room out.old 1 }
        ensures { Sends out.old out.new (type_sent own self.now.setup self.now.lamps frame.now) }
    {
        if frame.is_type_request() {
            let Lamps { on, slow, fast } = self.lamps;
            let PanelSetup { year, week } = self.setup;
            let bytes = [0xFF, 0x0B, on, slow, fast, year, week, 0];
            out.send(Frame::new(3, own, 8, bytes));
        }
    }
}

impl Module for Panel {
    ghost design = { λ p. design p.setup };

    ghost content = { content };

    ghost orderly = { Prim.search rules };

    ghost sized = { Prim.search rules };

    #[tactic(auto, using(bus::proofs::Outboxes::sends_both, bus::proofs::Outboxes::room_left, module::proofs::Sent::one_at_most, module::proofs::Sent::memory_sends_one))]
    fn command(&mut self, own: u8, frame: &Frame, out: &mut Outbox) {
        self.memory.obey(own, frame, out);
        self.answer_status(own, frame, out);
        self.answer_type(own, frame, out);
        self.lamps.obey(frame);
    }

    fn broadcast(&mut self, _own: u8, _frame: &Frame, _out: &mut Outbox) {}

    fn status(&mut self, _own: u8, _frame: &Frame, _out: &mut Outbox) {}

    fn second(&mut self, _own: u8, _out: &mut Outbox) {}

    fn push(&mut self, own: u8, channel: u8, edge: Edge, out: &mut Outbox) {
        self.buttons.push(own, Self::BUTTONS, channel, edge, out);
    }

    fn names(&self, _own: u8, _address: u8) -> bool {
        false
    }

    fn byte(&self, place: usize) -> Option<u8> {
        let Lamps { on, slow, fast } = self.lamps;
        let state = [on, slow, fast, self.buttons.pressed];
        self.memory.byte(&state, place)
    }
}

impl ModuleKind for Panel {
    type Setup = PanelSetup;

    ghost MEMORY = { 256 };

    const MEMORY: usize = CELLS;

    ghost BUTTONS = { 8 };

    const BUTTONS: u8 = 8;

    ghost design_with = { design };

    ghost fresh = { replicate 4 0 };

    ghost sizes = { λ _. (refl, refl) };

    // Lamps out, no button pressed.
    fn new(setup: PanelSetup) -> Self {
        Panel {
            setup,
            memory: Memory::new(),
            lamps: Lamps::new(),
            buttons: Buttons::new(),
        }
    }
}
