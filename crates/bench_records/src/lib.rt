// What bench/ times: a view's record is read, and its entries are walked, with every content byte used. `bench_records_c` exports it.
#![tactic(auto)]

ghost use Rattle.std.specs.Prelude.{◌≡◌, ◌≤◌, ◌<◌, length, take};
ghost use Rattle.model.specs.Reading as reading;
ghost use Rattle.record_entries.specs.BitLayout as places;
ghost use Rattle.bench_records.specs.Used.{sum_of, contents_of, used_of, count_of};
ghost use Rattle.model.specs.Sizes.{content_limit, index_limit};

use record_entries::view::ViewBytes;
use record_entries::walk::{Entries, FIRST_ENTRY, ShownEntry};
use record_reading::head::{Head, read};

// The sum of the bytes of an entry's content.
fn content_sum(e: &ShownEntry) -> u64
    requires { e.now.length ≤ content_limit }
    ensures { (result ≡ sum_of (take e.now.length e.now.content)) × (result ≤ 8160) }
{
    let mut sum: u64 = 0;
    for x in e.content() {
        sum += u64::from(*x);
    }
    sum
}

// The sum of the content bytes of a view's entries.
fn walk(s: &[u8], count: usize) -> u64
    requires { (count ≤ index_limit) × (0 < length s.now) × places.Walk (places.view_bits s.now) places.first_entry count }
    ensures { result ≡ contents_of (places.entries_at (places.view_bits s.now) places.first_entry count) }
{
    let entries = Entries {
        view: ViewBytes::of(s),
        next: FIRST_ENTRY,
        left: count,
    };
    let mut sum: u64 = 0;
    for e in entries {
        sum += content_sum(&e);
    }
    sum
}

// The number of entries of a readable view, 0 of anything else.
pub fn records_bench_scan(s: &[u8]) -> usize
    ensures { result ≡ count_of (reading.read s.now) }
{
    let Ok(Head::View { node: _, count }) = read(s) else {
        return 0;
    };
    count
}

// The sum of the content bytes of a readable view, 0 of anything else.
pub fn records_bench_walk(s: &[u8]) -> u64
    ensures { result ≡ used_of (reading.read s.now) }
{
    let Ok(Head::View { node: _, count }) = read(s) else {
        return 0;
    };
    walk(s, count)
}
