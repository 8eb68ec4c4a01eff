// Looks at the record of a module.

// The address of a module, a place in its record, and the bytes that must stand from there on, as hexadecimal text.
#[derive(Clone, Copy)]
pub(crate) struct Look<'a> {
    pub(crate) address: u8,
    pub(crate) place: usize,
    pub(crate) bytes: &'a str,
}

impl<'a> Look<'a> {
    // The look of a text `address place = bytes`. The address is hexadecimal and the place decimal; `none` instead of
    // bytes means that the record ends before this place, or that there is none.
    pub(crate) fn read(text: &'a str) -> Option<Self> {
        let (position, bytes) = text.split_once('=')?;
        let (address, place) = position.trim().split_once(' ')?;
        let bytes = if bytes.trim() == "none" { "" } else { bytes };
        Some(Look {
            address: u8::from_str_radix(address, 16).ok()?,
            place: place.parse().ok()?,
            bytes,
        })
    }
}
