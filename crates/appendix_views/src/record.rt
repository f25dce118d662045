// The record of a view, put behind what a sheet has.
ghost use Rattle.std.specs.Prelude.{◌+◌, ◌*◌, ◌≤◌, ◌<◌, ◌∷◌, [], ◌++◌, length};
ghost use Rattle.model.specs.Sizes.{Bytes};
ghost use Rattle.sheet_lines.specs.Filled.{Filled};
ghost use Rattle.appendix_views.specs.Views.{entry_of, view_count};
ghost use Rattle.appendix_views.specs.Counted.{view_at};
ghost use Rattle.appendix_views.specs.Recorded.{entry_bytes, record_bytes, record_room};

use crate::views::{Listed, nth};
use sheet_lines::decimal::Sheet;

fn put_entry(sheet: &mut Sheet<'_>, index: usize, e: Listed)
    requires { (sheet.old.end + 7 ≤ length sheet.old.out.now) × (index ≤ 3) × (e.term ≤ 2) }
    ensures { Filled 7 sheet.old (entry_bytes (record { index = index; entry = entry_of e })) sheet.new }
{
    sheet.put_text(&[4 * index as u8, 0, 0, 0, 4 * e.term as u8]);
    if e.filled {
        sheet.put_text(&[16, 0]);
    } else {
        sheet.put_text(&[0]);
    }
}

// The n-th view, of the node.
pub fn put_view(sheet: &mut Sheet<'_>, node: u8, n: usize)
    requires { (sheet.old.end + record_room ≤ length sheet.old.out.now) × (node < 2) × (n < view_count) }
    ensures { Filled record_room sheet.old (record_bytes node (view_at n)) sheet.new }
{
    let view = nth(n);
    sheet.put_text(&[16, 64 * node, 16 * view.count as u8]);
    for i in 0..view.count {
        put_entry(sheet, i + 1, view.entry(i + 1));
    }
}
