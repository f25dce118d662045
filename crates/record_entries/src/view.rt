// Views as records show them.
ghost use Rattle.std.specs.Prelude.{◌≡◌, ◌<◌, length};
ghost use Rattle.model.specs.Sizes.{node_count};
ghost use Rattle.record_entries.specs.BitLayout.{Walk, bits_of, view_bits, first_entry};

use record_bits::bits::bits_at;
use units::NodeId;

// A view's bytes, and whether each entry shows its mark there, as in kind 9.
#[derive(Clone, Copy)]
pub struct ViewBytes<'a> {
    pub bytes: &'a [u8],
    pub marked: bool,
}

impl<'a> ViewBytes<'a> {
    // A record as a view of its kind, of which there is a byte.
    pub fn of(s: &'a [u8]) -> ViewBytes<'a>
        requires { 0 < length s.now }
        ensures { bits_of result.bytes.now result.marked ≡ view_bits s.now }
    {
        ViewBytes {
            bytes: s,
            marked: bits_at(s, 0, 4) == 9,
        }
    }
}

// A readable one: its node, and the record with its entries. Whoever is lent it need not ask that they can be walked.
#[derive(Clone, Copy)]
pub struct View<'a> {
    pub shown: ViewBytes<'a>,
    pub entries: usize,
    pub node: NodeId,
    ghost walk: { ∥ Walk (bits_of shown.bytes.now shown.marked) first_entry entries ∥₁ },
    ghost is_node: { node.0 < node_count },
}
