// The bench that the cases are about.
use anyhow::anyhow;
use benchlog::Bench;
use kinds::{BenchModules, bench_modules};
use std::alloc::Global;

pub(crate) fn new_bench(heap: Global) -> anyhow::Result<Bench<BenchModules>> {
    Bench::new(heap, bench_modules()).map_err(|_| anyhow!("there is no memory for a bench"))
}
