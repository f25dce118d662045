// The table of certificates, by term, then arrival. A log is a stored prefix, where it is present.
ghost use Rattle.std.specs.Prelude.{◌≡◌, ◌+◌, ◌*◌, ◌≤◌, ◌<◌, length, refl};
ghost use Rattle.std.proofs.Common.{lit≤};
ghost use Rattle.storage.specs.Tables.{CertificateRow, certificate_row};
ghost use Rattle.storage.proofs.RowLaws.{certificate_length};
ghost use Rattle.storage_rows.specs.Certificates.{certificate_value, stored_value, told_row};
ghost use Rattle.storage_bytes.specs.declared.layout.TheConstants.{CERTIFICATES};
ghost use Rattle.storage_bytes.specs.Words.{word_bytes, put_bytes};
ghost use Rattle.storage_bytes.specs.Layout.{certificates_length, certificate_width, index_width, certificate_mark};
ghost use Rattle.storage.specs.Writes.{certificate_bytes, certificate_inserted, certificate_added};
ghost use Rattle.storage.specs.Head.{certificates_held};
ghost use Rattle.model.specs.Sizes.{certificate_limit};

use storage::head::{certificate_count, set_certificate_count};
use storage::rows::{Row, StoredRow};
use storage_bytes::layout::{
    CERTIFICATE_LEADER, CERTIFICATE_LOG, CERTIFICATE_MARK, CERTIFICATE_NUMBER, CERTIFICATE_PRESENT,
    CERTIFICATE_WIDTH, CERTIFICATES, Certificates, History, Region,
};
use storage_bytes::words::{Field, move_up, put8};
use units::{LogIndex, LogPrefixWitness, NodeId, Term};

// A certificate without a log.
pub const LOG_ABSENT: usize = 0;

// A certificate with its log.
pub const LOG_PRESENT: usize = 1;

#[derive(Clone, Copy, PartialEq, Eq)]
pub struct Certificate {
    pub term: Term,
    pub log: Option<LogPrefixWitness>,
    pub mark: LogIndex,
    pub leader: NodeId,
    // Its number within its term: how many that term held before it, a count.
    pub number: usize,
}

// A certificate's row as it is stored. Where the storage rules are broken any byte may stand for whether a log is present, and an absent
// log may have any number: so the row is apart from the certificate that it tells of.
#[derive(Clone, Copy, PartialEq, Eq)]
pub struct StoredCertificate {
    pub term: Term,
    pub log: LogPrefixWitness,
    pub mark: LogIndex,
    pub leader: NodeId,
    pub number: usize,
    // LOG_ABSENT or LOG_PRESENT, written by `put8` as a count is.
    pub present: usize,
}

// The number of an absent log tells nothing.
impl From<StoredCertificate> for Certificate {
    ghost from_gives = { λ row c. certificate_value c ≡ told_row (stored_value row) };

    fn from(row: StoredCertificate) -> Certificate {
        Certificate {
            term: row.term,
            log: (row.present != LOG_ABSENT).then_some(row.log),
            mark: row.mark,
            leader: row.leader,
            number: row.number,
        }
    }
}

impl From<Certificate> for StoredCertificate {
    ghost from_gives = { λ c row. stored_value row ≡ certificate_value c };

    fn from(c: Certificate) -> StoredCertificate {
        let (log, present) = match c.log {
            Some(log) => (log, LOG_PRESENT),
            None => (LogPrefixWitness::EMPTY, LOG_ABSENT),
        };
        StoredCertificate {
            term: c.term,
            log,
            mark: c.mark,
            leader: c.leader,
            number: c.number,
            present,
        }
    }
}

impl Row for StoredCertificate {
    ghost TABLE = { CERTIFICATES };

    ghost width = { certificate_width };

    ghost count = { certificate_limit };

    ghost bytes = { λ x. certificate_bytes (stored_value x) };

    ghost whole = { λ x. Unit {0} };

    ghost inside = { lit≤ tt };

    ghost filled = { refl };

    ghost wide = { λ x _. certificate_length (stored_value x) };

    const TABLE: Region = CERTIFICATES;

    fn put(self, certificates: &mut [u8], k: usize) {
        let o = k * CERTIFICATE_WIDTH;
        self.term.write(certificates, o);
        self.log.write(certificates, o + CERTIFICATE_LOG);
        self.mark.write(certificates, o + CERTIFICATE_MARK);
        self.leader.write(certificates, o + CERTIFICATE_LEADER);
        put8(certificates, o + CERTIFICATE_NUMBER, self.number);
        put8(certificates, o + CERTIFICATE_PRESENT, self.present);
    }
}

impl StoredRow for StoredCertificate {
    ghost Value = { CertificateRow };

    ghost value = { stored_value };

    ghost stored = { certificate_row };

    fn at(certificates: &[u8], k: usize) -> StoredCertificate {
        let o = k * CERTIFICATE_WIDTH;
        StoredCertificate {
            term: Term::read(certificates, o),
            log: LogPrefixWitness::read(certificates, o + CERTIFICATE_LOG),
            mark: LogIndex::read(certificates, o + CERTIFICATE_MARK),
            leader: NodeId::read(certificates, o + CERTIFICATE_LEADER),
            number: usize::from(u8::read(certificates, o + CERTIFICATE_NUMBER)),
            present: usize::from(u8::read(certificates, o + CERTIFICATE_PRESENT)),
        }
    }
}

// The certificate of row k.
pub fn certificate_at(certificates: &Certificates, k: usize) -> Certificate
    requires { k < certificate_limit }
    ensures { certificate_value result ≡ told_row (certificate_row certificates.now k) }
{
    Certificate::from(StoredCertificate::at(certificates, k))
}

// The term of row k alone. Fields that are read alone have a function each: one generic function would take a field's place and type
// at each call, where its name stands now.
pub fn term_at(certificates: &Certificates, k: usize) -> Term
    requires { k < certificate_limit }
    ensures { result.0 ≡ (certificate_row certificates.now k).term }
{
    Term::read(certificates, k * CERTIFICATE_WIDTH)
}

// Its mark alone.
pub fn mark_at(certificates: &Certificates, k: usize) -> LogIndex
    requires { k < certificate_limit }
    ensures { result.0 ≡ (certificate_row certificates.now k).mark }
{
    LogIndex::read(certificates, k * CERTIFICATE_WIDTH + CERTIFICATE_MARK)
}

// The mark of row k alone, written in the table.
pub fn put_mark(certificates: &mut [u8], k: usize, mark: LogIndex)
    requires { (k < certificate_limit) × (length certificates.old ≡ certificates_length) }
    ensures { certificates.new ≡ put_bytes certificates.old (k * certificate_width + certificate_mark) (word_bytes index_width mark.0) }
{
    mark.write(certificates, k * CERTIFICATE_WIDTH + CERTIFICATE_MARK);
}

// A row inserted at place k of a table of n: those from k on move up.
#[tactic(auto, unfolding(storage::specs::Writes::certificate_inserted))]
pub fn insert_certificate(certificates: &mut [u8], n: usize, k: usize, c: Certificate)
    requires { (k ≤ n) × (n < certificate_limit) × (length certificates.old ≡ certificates_length) }
    ensures { certificates.new ≡ certificate_inserted certificates.old n k (certificate_value c) }
{
    let w = CERTIFICATE_WIDTH;
    move_up(certificates, k * w, (n - k) * w, w);
    StoredCertificate::from(c).put(certificates, k);
}

// One more certificate in the whole history, at place k. A function that lends a region to be written was tried, and its `Lends` did
// not prove for a range.
#[tactic(auto, using(storage::proofs::WriteLaws::certificate_added_lem))]
pub fn add_certificate(history: &mut History, k: usize, c: Certificate)
    requires { (k ≤ certificates_held history.old) × (certificates_held history.old < certificate_limit) }
    ensures { history.new ≡ certificate_added history.old k (certificate_value c) }
{
    let n = certificate_count(history);
    let a = CERTIFICATES.start;
    let e = a + CERTIFICATES.length;
    insert_certificate(&mut history[a..e], n, k, c);
    set_certificate_count(history, n + 1);
}
