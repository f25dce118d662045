// A whole record, read: its kind with its plain fields, or the first fault from the left. Nothing is asked of the bytes.
ghost use Rattle.std.specs.Prelude.{◌≡◌, ◌+◌, ◌^◌, ◌≤◌, ◌<◌, IfOk, length};
ghost use Rattle.model.specs.Reading as reading;
ghost use Rattle.record_reading.specs.Heads.{Reads, finished, Told};
ghost use Rattle.record_entries.specs.BitLayout.{is_marked};

use record_bits::bits::{Fault, field, filled};
use record_bits::fields::INDEX_MOST;
use record_bits::reader::RecordReader;
use record_entries::scan::{Row, scan_entries, scan_items};
use record_entries::view::ViewBytes;
use units::{LogIndex, NodeId, Term};

// The bits of a kind; a record's fields come after them.
const KIND: usize = 4;

// The indexes after old, through new, were committed in a term.
#[derive(Clone, Copy)]
pub struct CommitTerms {
    pub old: LogIndex,
    pub new: LogIndex,
    pub term: Term,
}

// A leader was elected in a term, with that many entries of its front, or without its log.
#[derive(Clone, Copy)]
pub struct Election {
    pub leader: NodeId,
    pub term: Term,
    pub length: Option<usize>,
}

// A leader of a term: its log is held against the one kept for both.
#[derive(Clone, Copy)]
pub struct Leader {
    pub node: NodeId,
    pub term: Term,
}

// What a record says. A view's entries and the rows are walked where they are wanted (`record_entries`).
#[derive(Clone, Copy)]
pub enum Head {
    // The view of a node, with how many entries.
    View { node: NodeId, count: usize },
    // A node's commit index.
    Commit { node: NodeId, index: LogIndex },
    Terms(CommitTerms),
    Election(Election),
    // The completeness check.
    Check,
    // How many rows.
    Rows { count: usize },
    Leader(Leader),
}

// The head, where the fields that end before bit `at` fill the record.
fn finish(s: &[u8], at: usize, head: Head) -> Result<Head, Fault>
    ensures { result ≡ finished s.now at head }
{
    if filled(s, at) {
        Ok(head)
    } else {
        Err(Fault::Filling)
    }
}

// 1 view, 9 view with marks: node, count, entries.
#[tactic(auto, unfolding(model::specs::Reading::view_fields))]
fn read_view(s: &[u8]) -> Result<Head, Fault>
    requires { 0 < length s.now }
    ensures { Reads (reading.view_fields (is_marked s.now)) s.now result }
{
    let mut fields = RecordReader::new(s, KIND);
    let node = fields.take_node()?;
    let count = fields.take_limited(10, INDEX_MOST)? as usize;
    let end = scan_entries(s, fields.next, count, ViewBytes::of(s).marked)?;
    finish(s, end, Head::View { node, count })
}

// 2 commit: node, commit index.
#[tactic(auto, unfolding(model::specs::Reading::commit_fields))]
fn read_commit(s: &[u8]) -> Result<Head, Fault>
    ensures { Reads reading.commit_fields s.now result }
{
    let mut fields = RecordReader::new(s, KIND);
    let node = fields.take_node()?;
    let index = fields.take_index()?;
    finish(s, fields.next, Head::Commit { node, index })
}

// 3 commit terms: old, new, term.
#[tactic(auto, unfolding(model::specs::Reading::terms_fields))]
fn read_terms(s: &[u8]) -> Result<Head, Fault>
    ensures { Reads reading.terms_fields s.now result }
{
    let mut fields = RecordReader::new(s, KIND);
    let old = fields.take_index()?;
    let new = fields.take_index()?;
    let term = fields.take_term()?;
    let terms = CommitTerms { old, new, term };
    finish(s, fields.next, Head::Terms(terms))
}

// 4 election: leader, term, log present, length.
#[tactic(auto, unfolding(model::specs::Reading::election_fields))]
fn read_election(s: &[u8]) -> Result<Head, Fault>
    ensures { Reads reading.election_fields s.now result }
{
    let mut fields = RecordReader::new(s, KIND);
    let leader = fields.take_node()?;
    let elected_in = fields.take_term()?;
    let present = fields.take_yes_no()?;
    let length = fields.take_governed(present, 10, INDEX_MOST)? as usize;
    let election = Election {
        leader,
        term: elected_in,
        length: present.then_some(length),
    };
    finish(s, fields.next, Head::Election(election))
}

// 6 rows: count, rows.
#[tactic(auto, unfolding(model::specs::Reading::rows_fields))]
fn read_rows(s: &[u8]) -> Result<Head, Fault>
    ensures { Reads reading.rows_fields s.now result }
{
    let mut fields = RecordReader::new(s, KIND);
    let count = fields.take_limited(10, INDEX_MOST)? as usize;
    let end = scan_items::<Row>(s, fields.next, count)?;
    finish(s, end, Head::Rows { count })
}

// 7 leader: node, term.
#[tactic(auto, unfolding(model::specs::Reading::leader_fields))]
fn read_leader(s: &[u8]) -> Result<Head, Fault>
    ensures { Reads reading.leader_fields s.now result }
{
    let mut fields = RecordReader::new(s, KIND);
    let node = fields.take_node()?;
    let term = fields.take_term()?;
    finish(s, fields.next, Head::Leader(Leader { node, term }))
}

// Any bytes: every record starts with a kind of 4 bits. A kind is a number here, and where its line is printed.
#[tactic(auto, using(crate::proofs::Readable::told, crate::proofs::Heads::finish_head), unfolding(model::specs::Reading::read, model::specs::Reading::record_fields, model::specs::Reading::fields_of))]
pub fn read(s: &[u8]) -> Result<Head, Fault>
    ensures { Told s.now result }
{
    match field(s, 0, KIND)? {
        1 | 9 => read_view(s),
        2 => read_commit(s),
        3 => read_terms(s),
        4 => read_election(s),
        5 => finish(s, KIND, Head::Check),
        6 => read_rows(s),
        7 => read_leader(s),
        _ => Err(Fault::UnknownKind),
    }
}
