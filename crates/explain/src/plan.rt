// Which modules stand at which addresses: those of `bench_modules`.
use terms::ModuleType;

pub const RELAY: u8 = 0x10;

pub const INTERFACE: u8 = 0x20;

pub const PANEL: u8 = 0x30;

pub const PLAN: [(u8, ModuleType); 3] = [
    (RELAY, ModuleType::Relay),
    (INTERFACE, ModuleType::Buttons),
    (PANEL, ModuleType::Panel),
];

// How many frames a call can send: nine for each module.
pub const PLACES: usize = 27;
