// The storage rules of the table of findings.
ghost use Rattle.std.specs.Prelude.{◌≡◌, ◌≤◌};
ghost use Rattle.storage_bytes.specs.Lists.{every};
ghost use Rattle.storage.specs.Tables.{finding_rows};
ghost use Rattle.storage.specs.Rules.{finding_right};
ghost use Rattle.storage_rows.specs.Rows.{finding_value};
ghost use Rattle.model.specs.Sizes.{finding_limit};

use storage::rows::all_rows;
use storage_bytes::layout::Findings;
use storage_rows::findings::{Found, LG_01, LG_03, LG_05};
use units::{LogIndex, NodeId};

// The storage rules of one row.
#[tactic(auto, unfolding(storage::specs::Rules::finding_right))]
fn finding_right(f: Found) -> bool
    ensures { result ≡ finding_right (finding_value f) }
{
    if f.name != LG_01 && (f.name < LG_03 || LG_05 < f.name) {
        return false;
    }
    if NodeId::LAST < f.node {
        return false;
    }
    f.index <= LogIndex::LAST
}

// The storage rules of every one of m rows.
pub fn findings_right(findings: &Findings, m: usize) -> bool
    requires { m ≤ finding_limit }
    ensures { result ≡ every finding_right (finding_rows findings.now m) }
{
    all_rows(findings, m, finding_right)
}
