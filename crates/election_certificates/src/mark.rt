// The checked mark of one certificate, set where the certificate is lent. Only the mark moves.
ghost use Rattle.std.specs.Prelude.{◌≡◌};
ghost use Rattle.storage_rows.specs.Certificates.{certificate_value};
ghost use Rattle.election_certificates.specs.WithMark.{marked_row};

use storage_rows::certificates::Certificate;
use units::LogIndex;

// Sets the mark of a lent certificate, as document 01 names it. Every other field stays.
fn set_mark(c: &mut Certificate, through: LogIndex)
    ensures { certificate_value c.new ≡ marked_row (certificate_value c.old) through.0 }
{
    c.mark = through;
}

// The same by value: only this function lends a certificate.
pub fn with_mark(mut c: Certificate, through: LogIndex) -> Certificate
    ensures { certificate_value result ≡ marked_row (certificate_value c) through.0 }
{
    set_mark(&mut c, through);
    c
}
