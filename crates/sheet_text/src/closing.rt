// The lists of a history, put into a sheet: findings, leaders, unseen, unknown, committed.
ghost use Rattle.std.specs.Prelude.{◌≡◌, ℕ, ◌+◌, ◌*◌, ◌≤◌, List, map, length, slice_get};
ghost use Rattle.std.specs.Option.{option_map};
ghost use Rattle.model.specs.Lists.{finding_list, leader_list, unseen_list, unknown_list};
ghost use Rattle.model.specs.Sizes.{Bytes};
ghost use Rattle.storage.specs.Decode.{decode};
ghost use Rattle.sheet_lines.specs.Filled.{Filled};
ghost use Rattle.sheet_lines.specs.Lines.{finding_line, leader_line, unseen_line, unknown_line, finding_room, leader_room, unseen_room, unknown_room};
ghost use Rattle.sheet_text.specs.Closing.{joined, of_finding, of_leader, of_unseen, closing_of, longest_list, closing_room};

use lists::committed::printed_committed;
use lists::findings::finding_at;
use lists::leaders::{Leader, leader_at};
use lists::unknown::unknown_at;
use lists::unseen::{Unseen, unseen_at};
use sheet_lines::decimal::Sheet;
use sheet_lines::lines::{put_committed, put_finding, put_leader, put_unknown, put_unseen};
use storage::stored::Stored;
use storage_rows::findings::Found;
use storage_rules::whole::stored;
use units::{INDEX_LIMIT, LogIndex};

// No list is longer: 128 findings and leaders, 64 unseen marks, 256 unknown indexes.
const LONGEST_LIST: usize = INDEX_LIMIT;

// An element of one of the lists, with the line that is printed of it.
trait Listed: Copy {
    // The lines of the list that a history holds.
    ghost lines: { Bytes → List Bytes };

    // No line has more bytes.
    ghost width: { ℕ };

    ghost line: { Self → Bytes };

    // The n-th element, counted from 0.
    fn nth(history: Stored<'_>, n: usize) -> Option<Self>
        ensures { option_map line result ≡ slice_get (lines history.entry.bytes.now) n };

    fn put(self, sheet: &mut Sheet<'_>)
        requires { sheet.old.end + width ≤ length sheet.old.out.now }
        ensures { Filled width sheet.old (line self) sheet.new };
}

impl Listed for Found {
    ghost lines = { λ h. map of_finding (finding_list (decode h)) };

    ghost width = { finding_room };

    ghost line = { λ f. finding_line f.name f.node.0 f.index.0 f.term.0 };

    #[tactic(auto, using(crate::proofs::ClosingLaws::finding_nth))]
    fn nth(history: Stored<'_>, n: usize) -> Option<Found> {
        finding_at(history, n)
    }

    fn put(self, sheet: &mut Sheet<'_>) {
        put_finding(sheet, self);
    }
}

impl Listed for Leader {
    ghost lines = { λ h. map of_leader (leader_list (decode h)) };

    ghost width = { leader_room };

    ghost line = { λ l. leader_line l.term.0 l.leader.0 };

    #[tactic(auto, using(crate::proofs::ClosingLaws::leader_nth))]
    fn nth(history: Stored<'_>, n: usize) -> Option<Leader> {
        leader_at(history, n)
    }

    fn put(self, sheet: &mut Sheet<'_>) {
        put_leader(sheet, self.term, self.leader);
    }
}

impl Listed for Unseen {
    ghost lines = { λ h. map of_unseen (unseen_list (decode h)) };

    ghost width = { unseen_room };

    ghost line = { λ u. unseen_line u.node.0 u.index.0 };

    #[tactic(auto, using(crate::proofs::ClosingLaws::unseen_nth))]
    fn nth(history: Stored<'_>, n: usize) -> Option<Unseen> {
        unseen_at(history, n)
    }

    fn put(self, sheet: &mut Sheet<'_>) {
        put_unseen(sheet, self.node, self.index);
    }
}

// An unknown index.
impl Listed for LogIndex {
    ghost lines = { λ h. map unknown_line (unknown_list (decode h)) };

    ghost width = { unknown_room };

    ghost line = { λ i. unknown_line i.0 };

    #[tactic(auto, using(crate::proofs::ClosingLaws::unknown_nth))]
    fn nth(history: Stored<'_>, n: usize) -> Option<LogIndex> {
        unknown_at(history, n)
    }

    fn put(self, sheet: &mut Sheet<'_>) {
        put_unknown(sheet, self);
    }
}

// The lines of a list, one after another.
fn put_list<T: Listed>(history: Stored<'_>, sheet: &mut Sheet<'_>)
    requires start_in_bounds { sheet.old.end + longest_list * T.width ≤ length sheet.old.out.now }
    requires short { length (T.lines history.bytes.now) ≤ longest_list }
    ensures { Filled (longest_list * T.width) sheet.old (joined (T.lines history.entry.bytes.now)) sheet.new }
{
    for n in 0..LONGEST_LIST {
        let Some(x) = T::nth(history, n) else {
            return;
        };
        x.put(sheet);
    }
}

// The lists of a history that keeps the storage rules, behind what the sheet has.
#[tactic(auto, using(crate::proofs::ClosingLaws::closed_broken, crate::proofs::ClosingLaws::findings_short, crate::proofs::ClosingLaws::leaders_short, crate::proofs::ClosingLaws::unseen_short, crate::proofs::ClosingLaws::unknown_short))]
pub fn put_lists(history: &[u8], sheet: &mut Sheet<'_>)
    requires { sheet.old.end + closing_room ≤ length sheet.old.out.now }
    ensures { Filled closing_room sheet.old (closing_of history.now) sheet.new }
{
    let Some(history) = stored(history) else {
        return;
    };
    put_list::<Found>(history, sheet);
    put_list::<Leader>(history, sheet);
    put_list::<Unseen>(history, sheet);
    put_list::<LogIndex>(history, sheet);
    let committed = printed_committed(history);
    put_committed(sheet, committed.length, committed.owner);
}
