// The partner's appendix: each view that is listed, a line each, as its record of node 0 in lowercase hexadecimal.
#![tactic(auto)]

ghost use Rattle.std.specs.Prelude.{◌<◌, OnOk};
ghost use Rattle.std.specs.Io.KnownBytes.{Appends};
ghost use Rattle.appendix_views.specs.Views.{view_count};
ghost use Rattle.appendix_views.specs.Counted.{view_at};
ghost use Rattle.appendix.specs.Text.{line_of, appendix_text};

use appendix_views::record::put_view;
use appendix_views::views::VIEWS;
use hex::encode_to_slice;
use sheet_lines::decimal::Sheet;
use std::io;
use std::io::Write;

// The line of the n-th view. The digits have just their room, so that they cannot be refused.
fn print_line<W: Write>(writer: &mut W, n: usize) -> io::Result<()>
    requires { n < view_count }
    ensures { OnOk result (Appends (W.contents writer.old) (W.contents writer.new) (line_of (view_at n))) }
{
    let mut bytes = [0u8; 24];
    let mut record = Sheet {
        out: &mut bytes,
        end: 0,
    };
    put_view(&mut record, 0, n);
    let end = record.end;
    let mut digits = [0u8; 48];
    let _ = encode_to_slice(&record.out[..end], &mut digits[..2 * end]);
    writer.write_all(&digits[..2 * end])?;
    writer.write_all(b"\n")
}

// All lines, and nothing else.
fn print<W: Write>(writer: &mut W) -> io::Result<()>
    ensures { OnOk result (Appends (W.contents writer.old) (W.contents writer.new) appendix_text) }
{
    for n in 0..VIEWS {
        print_line(writer, n)?;
    }
    Ok(())
}

fn main(rt: HostRuntime) -> io::Result<()> {
    print(&mut rt.stdout())
}
