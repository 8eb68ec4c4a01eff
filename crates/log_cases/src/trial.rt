// Trying a case.
use crate::case::Case;
use crate::difference::{Difference, Subject};
use crate::look::Look;
use crate::modules::new_bench;
use anyhow::{Context, Result, anyhow};
use benchlog::{Bench, Reader};
use hextext::{HexLines, write_line};
use kinds::BenchModules;
use std::alloc::Global;

// Runs the log of a case on a new bench, looks at the records then, and answers what is not as it should be.
pub(crate) fn differences(heap: Global, case: &Case<'_>) -> Result<Vec<Difference>> {
    let mut bench = new_bench(heap)?;
    let log = hextext::read(heap, case.log.as_bytes())?;
    let mut found = Vec::new(heap);
    bench.run(log.as_slice(), &mut found)?;
    let expected = hextext::read(heap, case.answers.as_bytes())?;
    let mut differences = Vec::new(heap);
    note(&mut differences, Subject::Answers, expected, found)?;
    look_at_lines(heap, log.as_slice(), &mut differences)?;
    if !case.looks.is_empty() {
        for text in case.looks.split(';') {
            let look = Look::read(text).ok_or_else(|| anyhow!("this is no look:{text}"))?;
            look_at(heap, &bench, &look, &mut differences)?;
        }
    }
    Ok(differences)
}

// Runs a log to lines of text, and notes them if they are not a line for the answer to each item.
fn look_at_lines(heap: Global, log: &[u8], differences: &mut Vec<Difference>) -> Result<()> {
    let mut found = Vec::new(heap);
    new_bench(heap)?.run(log, &mut HexLines::new(&mut found))?;
    let mut bench = new_bench(heap)?;
    let mut expected = Vec::new(heap);
    let mut buffer = [0; 360];
    for item in Reader::new(log) {
        match item {
            Ok(item) => {
                let count = bench
                    .answer(&item, &mut buffer[..])
                    .map_err(|refusal| anyhow!("{refusal}"))?;
                let answer = buffer.get(..count).context("too many bytes")?;
                write_line(answer, &mut expected)?;
            }
            Err(fault) => write_line(&fault.bytes(), &mut expected)?,
        }
    }
    note(differences, Subject::Lines, expected, found)
}

// Takes a look, and notes what it finds if that is something else.
fn look_at(
    heap: Global,
    bench: &Bench<BenchModules>,
    look: &Look<'_>,
    differences: &mut Vec<Difference>,
) -> Result<()> {
    let subject = Subject::Record {
        address: look.address,
        place: look.place,
    };
    let expected = hextext::read(heap, look.bytes.as_bytes())?;
    let mut found = Vec::new(heap);
    // where nothing is expected, it takes one byte to see that something is there
    for n in 0..expected.len().max(1) {
        let place = look.place.saturating_add(n);
        if let Some(byte) = bench.record(look.address, place) {
            found.push(byte)?;
        }
    }
    note(differences, subject, expected, found)
}

fn note(
    differences: &mut Vec<Difference>,
    subject: Subject,
    expected: Vec<u8>,
    found: Vec<u8>,
) -> Result<()> {
    if expected.as_slice() != found.as_slice() {
        differences.push(Difference {
            subject,
            expected,
            found,
        })?;
    }
    Ok(())
}
