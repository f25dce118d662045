// The fields of a record written into a lent buffer, one after the other. Each goes into the unwritten rest: the byte that it
// shares with the field before it keeps that one's bits, and nothing else is written twice.
ghost use Rattle.std.specs.Prelude.{◌≡◌, ◌+◌, ◌-◌, ◌*◌, ◌^◌, ◌<◌, ◌≤◌, length};
ghost use Rattle.record_writing.specs.Puts.{put_field, put_spans, Room, spans_by, contents_by, content_count, entry_by, entries_by, rows_by, record_by, Fields};
ghost use Rattle.record_writing.specs.Spans.{total};

// The bits of an entry's numbers before its content, and of a row's.
const ENTRY: [usize; 3] = [10, 32, 6];

const ROW: [usize; 10] = [6, 10, 10, 10, 1, 10, 32, 1, 10, 32];

// A field of w bits. With the bits before it in its first byte, it is the head of a word, which always holds 57, and the bytes
// that it reaches are written.
pub fn put_bits(t: &mut [u8], at: usize, w: usize, v: u64)
    requires { (0 < w) × (w ≤ 57) × (v < 2 ^ w) × (at + w ≤ 8 * length t.old) }
    ensures { t.new ≡ put_field t.old at w v }
{
    let first = at / 8;
    let used = at % 8 + w;
    let above = u64::from(t[first]) >> (8 - at % 8);
    let word = ((above << w) + v) << (64 - used);
    let n = (used + 7) / 8;
    t[first..first + n].copy_from_slice(&word.to_be_bytes()[..n]);
}

// The fields from number `from` on, one for each width.
fn put_fields(t: &mut [u8], at: usize, fields: &[u64], from: usize, widths: &[usize])
    requires { Room (length t.old) at (length fields.now) from (spans_by widths.now fields.now from) }
    ensures { t.new ≡ put_spans t.old at (spans_by widths.now fields.now from) }
{
    let mut next = at;
    for i in 0..widths.len() {
        put_bits(t, next, widths[i], fields[from + i]);
        next += widths[i];
    }
}

// n bytes of content, from number `from` on, into the rest of the buffer, the first of whose bytes has `at` bits already.
fn put_content(rest: &mut [u8], at: usize, fields: &[u64], from: usize, n: usize)
    requires { Room (length rest.old) at (length fields.now) from (contents_by fields.now from n) }
    ensures { rest.new ≡ put_spans rest.old at (contents_by fields.now from n) }
{
    for i in 0..n {
        put_bits(rest, at + 8 * i, 8, fields[from + i]);
    }
}

// An entry, from number `from` on: how many bytes its content has.
fn put_entry(t: &mut [u8], at: usize, fields: &[u64], from: usize) -> usize
    requires { Room (length t.old) at (length fields.now) from (entry_by fields.now from) }
    ensures written { t.new ≡ put_spans t.old at (entry_by fields.now from) }
    ensures count { result ≡ content_count fields.now from }
{
    put_fields(t, at, fields, from, &ENTRY);
    let n = fields[from + 2] as usize;
    let next = at + 48;
    put_content(&mut t[next / 8..], next % 8, fields, from + 3, n);
    n
}

// A view's entries.
fn put_entries(t: &mut [u8], at: usize, fields: &[u64], from: usize, count: usize)
    requires { Room (length t.old) at (length fields.now) from (entries_by fields.now from count) }
    ensures { t.new ≡ put_spans t.old at (entries_by fields.now from count) }
{
    let mut next = at;
    let mut k = from;
    for _ in 0..count {
        let n = put_entry(t, next, fields, k);
        next = next + 48 + 8 * n;
        k = k + 3 + n;
    }
}

// The rows.
fn put_rows(t: &mut [u8], at: usize, fields: &[u64], from: usize, count: usize)
    requires { Room (length t.old) at (length fields.now) from (rows_by fields.now from count) }
    ensures { t.new ≡ put_spans t.old at (rows_by fields.now from count) }
{
    let mut next = at;
    let mut k = from;
    for _ in 0..count {
        put_fields(t, next, fields, k, &ROW);
        next += 122;
        k += 10;
    }
}

// The bits of a record's first fields, by its kind.
const VIEW: [usize; 3] = [4, 6, 10];

const COMMIT: [usize; 3] = [4, 6, 10];

const TERMS: [usize; 4] = [4, 10, 10, 32];

const ELECTION: [usize; 5] = [4, 6, 32, 1, 10];

const CHECK: [usize; 1] = [4];

const ROWS: [usize; 2] = [4, 10];

// How many bits a record takes. An entry's three numbers take 48, and each byte of a content 8: so 8 for every number after a
// view's head, and 24 more for every entry.
#[tactic(auto, using(crate::proofs::Whole::record_some), unfolding(crate::specs::Puts::record_by))]
pub fn bits(fields: &[u64]) -> usize
    requires { Fields fields.now }
    ensures is { result ≡ total (record_by fields.now) }
    ensures near { result < 2 ^ 64 - 8 }
{
    match fields[0] {
        1 => 20 + 24 * fields[2] as usize + 8 * (fields.len() - 3),
        2 => 20,
        3 => 56,
        4 => 53,
        5 => 4,
        _ => 14 + 122 * fields[1] as usize,
    }
}

// The whole record, from the buffer's start.
#[tactic(auto, using(crate::proofs::Whole::record_some), unfolding(crate::specs::Puts::record_by))]
pub fn put_record(t: &mut [u8], fields: &[u64])
    requires { Room (length t.old) 0 (length fields.now) 0 (record_by fields.now) }
    ensures { t.new ≡ put_spans t.old 0 (record_by fields.now) }
{
    match fields[0] {
        1 => {
            put_fields(t, 0, fields, 0, &VIEW);
            put_entries(t, 20, fields, 3, fields[2] as usize);
        }
        2 => put_fields(t, 0, fields, 0, &COMMIT),
        3 => put_fields(t, 0, fields, 0, &TERMS),
        4 => put_fields(t, 0, fields, 0, &ELECTION),
        5 => put_fields(t, 0, fields, 0, &CHECK),
        _ => {
            put_fields(t, 0, fields, 0, &ROWS);
            put_rows(t, 14, fields, 2, fields[1] as usize);
        }
    }
}
