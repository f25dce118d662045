// A record's numbers, looked at from the left for their first fault. Nothing is written before all of them are.
ghost use Rattle.std.specs.Prelude.{ℕ, ◌≡◌, ◌+◌, ◌≤◌, ◌<◌, IfOk, length};
ghost use Rattle.model.specs.Record as model;
ghost use Rattle.model.specs.Reading as reading;
ghost use Rattle.record_entries.specs.Scans.{keyed, ended, scan_part, end_part, done_part};
ghost use Rattle.record_entries.specs.BitLayout.{index_of, node_of};
ghost use Rattle.record_writing.specs.Format as format;
ghost use Rattle.record_writing.specs.Given as given;

use crate::numbers::{entry_index, governed, index, limited, number, row_node, yes_no};
use record_bits::bits::Fault;
use record_bits::fields::{CONTENT_MOST, IDENTITY_MOST, INDEX_MOST};
use record_entries::scan::Passed;

// What stands in a list, each item above the one before it: how it is read, and what rises.
pub trait Item {
    ghost Value: { Type 0 };

    ghost read: { ℕ → reading.Reader Value };

    ghost key: { Value → ℕ };

    // An item whose key is at least `least`.
    fn pass(fields: &[u64], at: usize, least: u64) -> Result<Passed, Fault>
        ensures reads { keyed key (read least fields.now at) ≡ scan_part result }
        ensures near { IfOk result (λ p. p.key ≤ 256) };
}

// A byte of a content: it has no key.
pub struct ContentByte;

impl Item for ContentByte {
    ghost Value = { ℕ };

    ghost read = { given.content_number };

    ghost key = { format.no_key };

    fn pass(fields: &[u64], at: usize, _least: u64) -> Result<Passed, Fault> {
        number(fields, at, 8)?;
        Ok(Passed {
            key: 0,
            next: at + 1,
        })
    }
}

// An entry: index, term, content length, content.
pub struct Entry;

impl Item for Entry {
    ghost Value = { model.Shown };

    ghost read = { given.shown_numbers };

    ghost key = { index_of };

    #[tactic(auto, unfolding(crate::specs::Format::shown, crate::specs::Format::mark))]
    fn pass(fields: &[u64], at: usize, least: u64) -> Result<Passed, Fault> {
        let i = entry_index(fields, at, least)?;
        let a = at + 1;
        number(fields, a, 32)?;
        let b = a + 1;
        let n = limited(fields, b, 6, CONTENT_MOST)?;
        let c = b + 1;
        let end = scan_items::<ContentByte>(fields, c, n as usize)?;
        Ok(Passed { key: i, next: end })
    }
}

// A configuration: present, index, identity.
#[tactic(auto, unfolding(crate::specs::Format::configuration))]
fn scan_configuration(fields: &[u64], at: usize) -> Result<(), Fault>
    ensures reads { ended (given.configuration_numbers fields.now at) ≡ done_part result (at + 3) }
    ensures within { IfOk result (λ u. at + 3 ≤ length fields.now) }
{
    let p = yes_no(fields, at)?;
    let a = at + 1;
    governed(fields, a, p, 10, INDEX_MOST)?;
    let b = a + 1;
    governed(fields, b, p, 32, IDENTITY_MOST)?;
    Ok(())
}

// A row: node, floor, commit, last index, floor configuration, actual configuration.
pub struct Row;

impl Item for Row {
    ghost Value = { model.Row };

    ghost read = { given.row_numbers };

    ghost key = { node_of };

    #[tactic(auto, unfolding(crate::specs::Format::row))]
    fn pass(fields: &[u64], at: usize, least: u64) -> Result<Passed, Fault> {
        let n = row_node(fields, at, least)?;
        let a = at + 1;
        index(fields, a)?;
        let b = a + 1;
        index(fields, b)?;
        let c = b + 1;
        index(fields, c)?;
        let d = c + 1;
        scan_configuration(fields, d)?;
        let e = d + 3;
        scan_configuration(fields, e)?;
        Ok(Passed {
            key: n,
            next: e + 3,
        })
    }
}

// The items of a list of `count`: the place after the last, or the first fault.
pub fn scan_items<I: Item>(fields: &[u64], first: usize, count: usize) -> Result<usize, Fault>
    ensures { ended (reading.many I.read I.key 0 count fields.now first) ≡ end_part result }
{
    let mut at = first;
    let mut least: u64 = 0;
    for _ in 0..count {
        let passed = I::pass(fields, at, least)?;
        least = passed.key + 1;
        at = passed.next;
    }
    Ok(at)
}

// 1 view: node, count, entries.
#[tactic(auto, unfolding(crate::specs::Format::view_fields))]
fn scan_view(fields: &[u64]) -> Result<usize, Fault>
    ensures { ended (given.view_numbers fields.now 1) ≡ end_part result }
{
    number(fields, 1, 6)?;
    let count = index(fields, 2)?;
    scan_items::<Entry>(fields, 3, count as usize)
}

// 2 commit: node, commit index.
#[tactic(auto, unfolding(crate::specs::Format::commit_fields))]
fn scan_commit(fields: &[u64]) -> Result<usize, Fault>
    ensures { ended (format.commit_fields given.number fields.now 1) ≡ end_part result }
{
    number(fields, 1, 6)?;
    index(fields, 2)?;
    Ok(3)
}

// 3 commit terms: old, new, term.
#[tactic(auto, unfolding(crate::specs::Format::terms_fields))]
fn scan_terms(fields: &[u64]) -> Result<usize, Fault>
    ensures { ended (format.terms_fields given.number fields.now 1) ≡ end_part result }
{
    index(fields, 1)?;
    index(fields, 2)?;
    number(fields, 3, 32)?;
    Ok(4)
}

// 4 election: leader, term, log present, length.
#[tactic(auto, unfolding(crate::specs::Format::election_fields))]
fn scan_election(fields: &[u64]) -> Result<usize, Fault>
    ensures { ended (format.election_fields given.number fields.now 1) ≡ end_part result }
{
    number(fields, 1, 6)?;
    number(fields, 2, 32)?;
    let p = yes_no(fields, 3)?;
    governed(fields, 4, p, 10, INDEX_MOST)?;
    Ok(5)
}

// 6 rows: count, rows.
#[tactic(auto, unfolding(crate::specs::Format::rows_fields))]
fn scan_rows(fields: &[u64]) -> Result<usize, Fault>
    ensures { ended (format.rows_fields given.number fields.now 1) ≡ end_part result }
{
    let count = index(fields, 1)?;
    scan_items::<Row>(fields, 2, count as usize)
}

// The place after a record's last field.
#[tactic(auto, unfolding(crate::specs::Given::record_numbers, crate::specs::Given::kind_number, crate::specs::Format::fields_of))]
fn scan_kind(fields: &[u64]) -> Result<usize, Fault>
    ensures { ended (given.record_numbers fields.now 0) ≡ end_part result }
{
    if fields.is_empty() {
        return Err(Fault::BitsMissing);
    }
    match fields[0] {
        1 => scan_view(fields),
        2 => scan_commit(fields),
        3 => scan_terms(fields),
        4 => scan_election(fields),
        5 => Ok(1),
        6 => scan_rows(fields),
        _ => Err(Fault::UnknownKind),
    }
}

// Whether the numbers are a record, or their first fault.
#[tactic(auto, unfolding(crate::specs::Given::given))]
pub fn scan_record(fields: &[u64]) -> Result<(), Fault>
    ensures { given.verdict (given.given fields.now) ≡ done_part result 0 }
{
    let end = scan_kind(fields)?;
    if end == fields.len() {
        Ok(())
    } else {
        Err(Fault::Filling)
    }
}
