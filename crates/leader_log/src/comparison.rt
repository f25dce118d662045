// Append-only comparison of two views of one leader (logical_log/comparison.rs).
ghost use Rattle.std.specs.Prelude.{◌≡◌, ◌≤◌};
ghost use Rattle.storage.specs.Head.{prefixes_held};
ghost use Rattle.storage_rows.specs.Rows.{leader_log_value};
ghost use Rattle.leader_log.specs.Comparison.{extends_in};

use log_prefix::comparison::same_prefix;
use log_prefix::lookup::slice_through;
use storage::stored::Stored;
use storage_bytes::layout::PREFIXES;
use storage_rows::leader_logs::LeaderLog;

// Whether the current view extends the previous one: not where it ends before it or differs through its end. Where a gap in either
// hides an entry up to that end, nothing can be said.
pub fn log_extends(history: Stored<'_>, previous: LeaderLog, current: LeaderLog) -> Option<bool>
    requires { (previous.front.0 ≤ prefixes_held history.bytes.now) × (current.front.0 ≤ prefixes_held history.bytes.now) }
    ensures { result ≡ extends_in history.entry.bytes.now (leader_log_value previous) (leader_log_value current) }
{
    if current.last < previous.last {
        return Some(false);
    }
    let bytes = history.bytes;
    let prefixes = PREFIXES.array(bytes);
    let Some(p) = slice_through(prefixes, previous.front, previous.last) else {
        return None;
    };
    let Some(q) = slice_through(prefixes, current.front, previous.last) else {
        return None;
    };
    Some(same_prefix(prefixes, p, q))
}
