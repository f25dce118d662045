// The storage rules of the table of certificates: of each row by itself, and of the numbers within each term.
ghost use Rattle.std.specs.Prelude.{◌≡◌, ◌≤◌};
ghost use Rattle.storage_bytes.specs.Lists.{every};
ghost use Rattle.storage.specs.Tables.{rows_of_certificates};
ghost use Rattle.storage.specs.Rules.{certificate_right, follows as followsRow, numbered as numberedRows};
ghost use Rattle.storage_rows.specs.Certificates.{stored_value};
ghost use Rattle.model.specs.Sizes.{certificate_limit};

use std::cmp::Ordering;
use storage::rows::{StoredRow, all_rows};
use storage_bytes::layout::Certificates;
use storage_rows::certificates::{LOG_PRESENT, StoredCertificate};
use units::{LogIndex, NodeId};

// The storage rules of one row by itself, where n prefixes are stored.
#[tactic(auto, unfolding(storage::specs::Rules::certificate_right))]
fn certificate_right(n: usize, c: StoredCertificate) -> bool
    ensures { result ≡ certificate_right n (stored_value c) }
{
    if n < c.log.0 {
        return false;
    }
    if LogIndex::LAST < c.mark {
        return false;
    }
    if NodeId::LAST < c.leader {
        return false;
    }
    c.present <= LOG_PRESENT
}

// The storage rules of every one of m rows by itself.
pub fn certificates_right(certificates: &Certificates, m: usize, n: usize) -> bool
    requires { m ≤ certificate_limit }
    ensures { result ≡ every (certificate_right n) (rows_of_certificates certificates.now m) }
{
    all_rows(
        certificates,
        m,
        |c: StoredCertificate| certificate_right(n, c),
    )
}

// One number more in the same term, or the first of a later one.
#[tactic(auto, unfolding(storage::specs::Rules::follows))]
fn follows(c: StoredCertificate, d: StoredCertificate) -> bool
    ensures { result ≡ followsRow (stored_value c) (stored_value d) }
{
    match d.term.cmp(&c.term) {
        Ordering::Less => false,
        Ordering::Equal => d.number != 0 && d.number - 1 == c.number,
        Ordering::Greater => d.number == 0,
    }
}

// The certificates of each term are numbered 0, 1, .. unbroken.
#[tactic(auto, using(crate::proofs::Numbering::numbered_start, crate::proofs::Numbering::numbered_first, crate::proofs::Numbering::numbered_no_rows, crate::proofs::Numbering::numbered_next, crate::proofs::Numbering::numbered_stop, crate::proofs::Numbering::numbered_none))]
pub fn numbered(certificates: &Certificates, m: usize) -> bool
    requires { m ≤ certificate_limit }
    ensures { result ≡ numberedRows (rows_of_certificates certificates.now m) }
{
    if m == 0 {
        return true;
    }
    let mut c = StoredCertificate::at(certificates, 0);
    if c.number != 0 {
        return false;
    }
    for k in 1..m {
        let d = StoredCertificate::at(certificates, k);
        if !follows(c, d) {
            return false;
        }
        c = d;
    }
    true
}
