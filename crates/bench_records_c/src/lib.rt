// The functions of `bench_records` for the benchmark in Rust, as a static library: under each name a call of the function of that name,
// with its clause.
#![tactic(auto)]

ghost use Rattle.std.specs.Prelude.{◌≡◌};
ghost use Rattle.model.specs.Reading as reading;
ghost use Rattle.bench_records.specs.Used.{count_of, used_of};

// The number of entries of a readable view, 0 of anything else.
#[unsafe(no_mangle)]
pub extern "C" fn records_bench_scan(s: &[u8]) -> usize
    ensures { result ≡ count_of (reading.read s.now) }
{
    bench_records::records_bench_scan(s)
}

// The sum of the content bytes of a readable view, 0 of anything else.
#[unsafe(no_mangle)]
pub extern "C" fn records_bench_walk(s: &[u8]) -> u64
    ensures { result ≡ used_of (reading.read s.now) }
{
    bench_records::records_bench_walk(s)
}
