// The bench: reads a log, runs it, and writes the answers to standard output.
#![tactic(auto)]

mod asked;
mod watched;

use asked::{Asked, command};
use benchlog::{Bench, ItemKind};
use cli::Source;
use hextext::HexLines;
use input::{Form, LIMIT, read_log};
use kinds::{BenchModules, bench_modules};
use std::io;
use std::io::{BufWriter, Write};
use std::process::ExitCode;
use watched::Watched;

fn main(rt: HostRuntime) -> ExitCode {
    cli::end(&rt, "bench", run(&rt))
}

fn run(rt: &HostRuntime) -> cli::Result<()> {
    let words = cli::words(rt)?;
    let matches = cli::matches(rt.alloc(), command(rt.alloc())?, words.as_slice())?;
    answer(rt, Asked::by(&matches))
}

// Runs the log; what memory is needed is taken before.
fn answer(rt: &HostRuntime, asked: Asked<'_>) -> cli::Result<()> {
    let heap = rt.alloc();
    let source = Source::open(rt, asked.file)?;
    let name = source.name;
    let log = read_log(heap, source, asked.form).map_err(|error| error.named(heap, name))?;
    advise(rt, asked.form, log.as_slice());
    let bench = Bench::new(heap, bench_modules()).map_err(|_| cli::Error::NoMemory)?;
    let out = BufWriter::with_capacity(heap, 65_536, io::writer(rt))?;
    let all_served = match asked.form {
        Form::Binary => write_answers(bench, log.as_slice(), out)?,
        Form::Hex => write_answers(bench, log.as_slice(), HexLines::new(out))?,
    };
    if asked.is_strict && !all_served {
        return Err(cli::Error::Strict);
    }
    Ok(())
}

// Says on standard error what may surprise in a log. Where nobody takes it, the answers count.
fn advise(rt: &HostRuntime, form: Form, log: &[u8]) {
    if let (Form::Binary, Some(first)) = (form, log.first()) {
        if ItemKind::try_from(*first).is_err() {
            let _ = eprintln!(rt;
                "bench: the first byte, {first:02X}, begins no item; bench hex reads a log that is written as text"
            );
        }
    }
    if log.len() == LIMIT {
        let _ = eprintln!(rt;
            "bench: read {LIMIT} bytes of the log, the most that is read; more, if any follows, was not read"
        );
    }
}

// Answers whether every item was served and the log is not faulty.
fn write_answers<W: Write + Drop>(
    mut bench: Bench<BenchModules>,
    log: &[u8],
    out: W,
) -> io::Result<bool> {
    let mut out = Watched::new(out);
    bench.run(log, &mut out)?;
    out.flush()?;
    Ok(out.all_served())
}
