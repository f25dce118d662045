// A history that keeps the storage rules, lent to be read. `storage_rules::whole::stored` tests lent bytes once and gives it, and no reader
// tests or asks again. A writer is lent the bytes and asks: between its first write and its last the rules may be broken, so no struct
// could hold the bytes over it.
ghost use Rattle.std.specs.Prelude.{◌≡◌, true};
ghost use Rattle.storage.specs.Rules.{well_formed};

use storage_bytes::layout::History;

#[derive(Clone, Copy)]
pub struct Stored<'a> {
    pub bytes: &'a History,
    ghost formed: { well_formed bytes.now ≡ true },
}
