// Records, as an installer reads them.
use house::House;
use station::Station;
use std::io;
use terms::ModuleType;

// Shows the record of a module in one line: its cells, except those that are as in a new memory, and its state bytes.
pub fn show_record<S: Station>(
    rt: &HostRuntime,
    house: &House<S>,
    address: u8,
    module: ModuleType,
) -> io::Result<()> {
    let cells = module.cells();
    print!(rt; "{module} {address:02X}: all cells FF")?;
    let mut differs = false;
    for place in 0..cells {
        match house.record(address, place) {
            Some(0xFF) | None => {}
            Some(byte) => {
                let joint = if differs { "" } else { " but" };
                print!(rt; "{joint} {place:04X}={byte:02X}")?;
                differs = true;
            }
        }
    }
    print!(rt; "; state bytes")?;
    for place in cells..usize::MAX {
        let Some(byte) = house.record(address, place) else {
            break;
        };
        print!(rt; " {byte:02X}")?;
    }
    println!(rt; "")
}
