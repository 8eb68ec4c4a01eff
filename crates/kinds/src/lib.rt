// The modules that there are, each new at an address. The contracts tie them to the kinds that the laws are about.
#![tactic(auto)]

ghost use Rattle.std.specs.Prelude.{◌≡◌, [], ◌∷◌};
ghost use Rattle.terms.specs.Sizes.{cells_of};
ghost use Rattle.kinds.specs.Kinds.{relay_kind, panel_kind, buttons_kind, EveryRelay, EveryPanel, EveryButtonInterface, new_seat};
ghost use Rattle.kinds.specs.Bench.{bench_seats};

use buttons::ButtonInterface;
use interface::{InterfaceSetup, Serial};
use module::{Module, ModuleKind, Seat};
use panel::{Panel, PanelSetup};
use relay::{PerChannel, Relay, RelaySetup, Timers};
use station::{Rail, Sieve, Station};
use terms::ModuleType;

// A relay: all channels open.
pub fn new_relay(address: u8, setup: RelaySetup) -> Seat<Relay>
    ensures { ⟦<Seat<Relay> as Station>⟧.seats result ≡ new_seat (relay_kind setup) address 16 ∷ [] }
{
    Seat::new(address, Relay::new(setup))
}

// A panel: lamps out, no button pressed.
pub fn new_panel(address: u8, setup: PanelSetup) -> Seat<Panel>
    ensures { ⟦<Seat<Panel> as Station>⟧.seats result ≡ new_seat (panel_kind setup) address 4 ∷ [] }
{
    Seat::new(address, Panel::new(setup))
}

// A button interface: lamps out, no button pressed, all channels free, and the clock at Monday 00:00.
pub fn new_button_interface(address: u8, setup: InterfaceSetup) -> Seat<ButtonInterface>
    ensures { ⟦<Seat<ButtonInterface> as Station>⟧.seats result ≡ new_seat (buttons_kind setup) address 32 ∷ [] }
{
    Seat::new(address, ButtonInterface::new(setup))
}

// The modules of the bench program: a relay under a sieve, a button interface and a panel.
pub type BenchModules = Rail<Sieve<Seat<Relay>>, Rail<Seat<ButtonInterface>, Seat<Panel>>>;

// These modules, new, at the addresses 10, 20 and 30; each number of their setups is 1.
pub fn bench_modules() -> BenchModules
    ensures { ⟦<BenchModules as Station>⟧.seats result ≡ bench_seats }
{
    let timers = Timers {
        first: 1,
        second: 1,
    };
    let relay = RelaySetup {
        timers: PerChannel {
            one: timers,
            two: timers,
            three: timers,
            four: timers,
        },
    };
    let interface = InterfaceSetup {
        serial: Serial { high: 1, low: 1 },
        map: 1,
        year: 1,
        week: 1,
    };
    Rail {
        first: Sieve {
            below: new_relay(0x10, relay),
        },
        second: Rail {
            first: new_button_interface(0x20, interface),
            second: new_panel(0x30, PanelSetup { year: 1, week: 1 }),
        },
    }
}

/// The cells that `terms` counts in a module are those of its kind, whatever the setup.
pub fn cells_are_of_the_kinds()
    ensures relay { EveryRelay (λ k. k.memory ≡ cells_of ModuleType.Relay) }
    ensures panel { EveryPanel (λ k. k.memory ≡ cells_of ModuleType.Panel) }
    ensures buttons { EveryButtonInterface (λ k. k.memory ≡ cells_of ModuleType.Buttons) }
{}
