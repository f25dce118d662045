// Where each table of a history lies in its lent bytes, how wide its rows are, and where some of their fields lie.
// A function that reads or writes a row takes only the table's own region, so that it can touch no other.
ghost use Rattle.std.specs.Prelude.{◌≡◌, ◌+◌, ◌≤◌, length};
ghost use Rattle.storage_bytes.specs.Layout.{Part};

use units::{
    CERTIFICATE_LIMIT, CONTENT_LIMIT, FINDING_LIMIT, INDEX_LIMIT, LEADER_LOG_LIMIT, NODE_COUNT,
    PREFIX_LIMIT,
};

// How many bytes a prefix's number takes, an index, a term, and what one byte holds: a node, a count of certificates, findings or
// leaders' logs, the name of a finding, the length of a content, a yes or no, an entry's mark.
const NUMBER: usize = 2;

const INDEX: usize = 2;

const TERM: usize = 4;

const BYTE: usize = 1;

// Where each field of the head lies: how many prefixes are held, commit terms, the committed prefix's number, how many certificates and
// findings, the owner, how many leaders' logs.
pub const PREFIXES_HELD: usize = 0;

pub const TERMS_HELD: usize = PREFIXES_HELD + NUMBER;

pub const COMMITTED_NUMBER: usize = TERMS_HELD + INDEX;

pub const CERTIFICATES_HELD: usize = COMMITTED_NUMBER + NUMBER;

pub const FINDINGS_HELD: usize = CERTIFICATES_HELD + BYTE;

pub const OWNER: usize = FINDINGS_HELD + BYTE;

pub const LEADER_LOGS_HELD: usize = OWNER + BYTE;

// Where each field of a row lies but the first, which is at its start, and how many bytes the row takes. A node: front, last, unseen.
pub const NODE_LAST: usize = NUMBER;

pub const NODE_UNSEEN: usize = NODE_LAST + INDEX;

pub const NODE_WIDTH: usize = NODE_UNSEEN + INDEX;

pub const TERM_WIDTH: usize = TERM;

// A certificate: term, log, mark, leader, number, present.
pub const CERTIFICATE_LOG: usize = TERM;

pub const CERTIFICATE_MARK: usize = CERTIFICATE_LOG + NUMBER;

pub const CERTIFICATE_LEADER: usize = CERTIFICATE_MARK + INDEX;

pub const CERTIFICATE_NUMBER: usize = CERTIFICATE_LEADER + BYTE;

pub const CERTIFICATE_PRESENT: usize = CERTIFICATE_NUMBER + BYTE;

pub const CERTIFICATE_WIDTH: usize = CERTIFICATE_PRESENT + BYTE;

// A finding: name, node, index, term.
pub const FINDING_NODE: usize = BYTE;

pub const FINDING_INDEX: usize = FINDING_NODE + BYTE;

pub const FINDING_TERM: usize = FINDING_INDEX + INDEX;

pub const FINDING_WIDTH: usize = FINDING_TERM + TERM;

// A prefix: parent, index, term, mark, size, content.
pub const PREFIX_INDEX: usize = NUMBER;

pub const PREFIX_TERM: usize = PREFIX_INDEX + INDEX;

pub const PREFIX_MARK: usize = PREFIX_TERM + TERM;

pub const PREFIX_SIZE: usize = PREFIX_MARK + BYTE;

pub const PREFIX_CONTENT: usize = PREFIX_SIZE + BYTE;

pub const PREFIX_WIDTH: usize = PREFIX_CONTENT + CONTENT_LIMIT;

// A leader's log: node, term, front, last.
pub const LEADER_LOG_TERM: usize = BYTE;

pub const LEADER_LOG_FRONT: usize = LEADER_LOG_TERM + TERM;

pub const LEADER_LOG_LAST: usize = LEADER_LOG_FRONT + NUMBER;

pub const LEADER_LOG_WIDTH: usize = LEADER_LOG_LAST + INDEX;

// The length of each region.
pub const HEAD_LENGTH: usize = LEADER_LOGS_HELD + BYTE;

pub const NODES_LENGTH: usize = NODE_COUNT * NODE_WIDTH;

pub const TERMS_LENGTH: usize = INDEX_LIMIT * TERM_WIDTH;

pub const CERTIFICATES_LENGTH: usize = CERTIFICATE_LIMIT * CERTIFICATE_WIDTH;

pub const FINDINGS_LENGTH: usize = FINDING_LIMIT * FINDING_WIDTH;

pub const PREFIXES_LENGTH: usize = PREFIX_LIMIT * PREFIX_WIDTH;

pub const LEADER_LOGS_LENGTH: usize = LEADER_LOG_LIMIT * LEADER_LOG_WIDTH;

// The length of a history.
pub const HISTORY_LENGTH: usize = LEADER_LOGS.start + LEADER_LOGS.length;

// Its bytes, with their count in the type, so that whoever is lent them need not ask for it. The library's callers lend slices: those
// are tested once, where they come in.
pub type History = [u8; HISTORY_LENGTH];

// The tables' bytes. Prefixes lie in theirs by number, each with that of the one it extends, and no Box: a history is lent bytes, without a
// heap.
pub type Nodes = [u8; NODES_LENGTH];

pub type Terms = [u8; TERMS_LENGTH];

pub type Certificates = [u8; CERTIFICATES_LENGTH];

pub type Findings = [u8; FINDINGS_LENGTH];

pub type PrefixTable = [u8; PREFIXES_LENGTH];

pub type LeaderLogs = [u8; LEADER_LOGS_LENGTH];

// A table's place in a history: where it starts, and its length. A ghost field that it lies inside was tried, and specs could not name
// its constants then.
#[derive(Clone, Copy)]
pub struct Region {
    pub start: usize,
    pub length: usize,
}

impl Region {
    // Its bytes in a history.
    pub fn of(self, history: &[u8]) -> &[u8]
        requires { self.start + self.length ≤ length history.now }
        ensures { Part history.now self.start self.length result.now }
    {
        part(history, self.start, self.length)
    }

    // The same with their count in the type.
    pub fn array<const N: usize>(self, history: &[u8]) -> &[u8; N]
        requires { (self.length ≡ N) × (self.start + self.length ≤ length history.now) }
        ensures { Part history.now self.start self.length result.now }
    {
        self.of(history).try_into().unwrap()
    }
}

// One lies right after another, from the head to the end.
pub const HEAD: Region = Region {
    start: 0,
    length: HEAD_LENGTH,
};

pub const NODES: Region = Region {
    start: HEAD.start + HEAD.length,
    length: NODES_LENGTH,
};

pub const TERMS: Region = Region {
    start: NODES.start + NODES.length,
    length: TERMS_LENGTH,
};

pub const CERTIFICATES: Region = Region {
    start: TERMS.start + TERMS.length,
    length: CERTIFICATES_LENGTH,
};

pub const FINDINGS: Region = Region {
    start: CERTIFICATES.start + CERTIFICATES.length,
    length: FINDINGS_LENGTH,
};

pub const PREFIXES: Region = Region {
    start: FINDINGS.start + FINDINGS.length,
    length: PREFIXES_LENGTH,
};

pub const LEADER_LOGS: Region = Region {
    start: PREFIXES.start + PREFIXES.length,
    length: LEADER_LOGS_LENGTH,
};

// The n bytes from a on.
#[tactic(auto, using(crate::proofs::PartLaws::part_lent))]
pub fn part(h: &[u8], a: usize, n: usize) -> &[u8]
    requires { a + n ≤ length h.now }
    ensures { Part h.now a n result.now }
{
    let e = a + n;
    &h[a..e]
}
