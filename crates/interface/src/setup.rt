// What the type reply tells of a single module.

#[derive(Clone, Copy)]
pub struct Serial {
    pub high: u8,
    pub low: u8,
}

// Serial number, version of the memory map, year and week of the build.
#[derive(Clone, Copy)]
pub struct InterfaceSetup {
    pub serial: Serial,
    pub map: u8,
    pub year: u8,
    pub week: u8,
}
