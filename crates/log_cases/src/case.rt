// A line of the table.

// A case as it stands in its line; all but the name is hexadecimal text.
#[derive(Clone, Copy)]
pub(crate) struct Case<'a> {
    pub(crate) name: &'a str,
    pub(crate) log: &'a str,
    pub(crate) answers: &'a str,
    pub(crate) looks: &'a str,
}

impl<'a> Case<'a> {
    // The case of a line `name: log = answers; look; look`, where there may be any number of looks.
    pub(crate) fn read(line: &'a str) -> Option<Self> {
        let (name, rest) = line.split_once(':')?;
        let (log, rest) = rest.split_once('=')?;
        let (answers, looks) = rest.split_once(';').unwrap_or((rest, ""));
        Some(Case {
            name,
            log,
            answers,
            looks,
        })
    }
}
