// The library for its callers: byte slices and numbers, and nothing is asked of the bytes. A reader's `state` is 0 where there
// is an element, 1 where there are not so many, 12 where the history breaks its storage rules. `history_c` exports the same
// functions to callers in other languages.
ghost use Rattle.std.specs.Prelude.{◌≡◌, ℕ, true, false, Option, Some, IfSome, IfNone};
ghost use Rattle.storage.specs.Rules.{well_formed};
ghost use Rattle.record_writing.specs.Writing.{Replies};
ghost use Rattle.record_editions.specs.Editions.{ConvertReplies};
ghost use Rattle.storage_bytes.specs.Layout.{history_length};
ghost use Rattle.history.specs.Exports.{Handed, MadeFresh, no_finding, finding_reply, no_leader, leader_reply, no_mark, unseen_reply, no_index, unknown_reply, finding_out, leader_out, unseen_out, unknown_out, committed_out};

use answers::numbers::Reply;
use lists::committed::printed_committed;
use lists::findings::finding_at;
use lists::leaders::{Leader, leader_at};
use lists::unknown::unknown_at;
use lists::unseen::{Unseen, unseen_at};
use record_editions::convert::convert;
use record_editions::refusal::write_reply;
use record_writing::reply::WriteReply;
use record_writing::write::write;
use storage::fresh::{WrongLength, fresh};
use storage::stored::Stored;
use storage_bytes::layout::HISTORY_LENGTH;
use storage_rows::findings::Found;
use storage_rules::whole::stored;
use submission::submit::submit;
use units::LogIndex;

// The states of a reply are numbers: only numbers and structs of numbers go to callers in C.
const HERE: u8 = 0;

const NO_MORE: u8 = 1;

const BROKEN: u8 = 12;

// A reply of the readers. No `Default`: a function that then sets the state would need as many impls.
trait Stated: Copy {
    ghost nothing: { ℕ → Self };

    // No element: the state, and zeros.
    fn nothing(state: u8) -> Self
        ensures { result ≡ nothing state };
}

// The reply of the element that a reader gives, where the history keeps its storage rules.
fn reply<T: Copy, R: Stated + From<T>, F: FnOnce(Stored<'_>) -> Option<T>>(
    history: &[u8],
    nth: F,
) -> R
    requires { F.IsAlwaysCallable nth }
    ensures broken { well_formed history.now ≡ false → result ≡ R.nothing 12 }
    ensures given { well_formed history.now ≡ true → (lent : _) × (lent.bytes.now ≡ history.now) × (x : Option T) × F.post nth lent x × IfSome x (λ v. R.from_gives v result) × IfNone x (result ≡ R.nothing 1) }
{
    let Some(history) = stored(history) else {
        return R::nothing(BROKEN);
    };
    match nth(history) {
        Some(x) => R::from(x),
        None => R::nothing(NO_MORE),
    }
}

// How many bytes a history has.
pub fn gamiwhoru_length() -> usize
    ensures { result ≡ history_length }
{
    HISTORY_LENGTH
}

// A fresh history: 0, or 12 where the bytes are not as many as a history has, and then they are left as they were.
#[tactic(auto, using(crate::proofs::Printed::made_fresh, crate::proofs::Printed::made_broken))]
pub fn gamiwhoru_fresh(history: &mut [u8]) -> u8
    ensures { MadeFresh history.old result history.new }
{
    match fresh(history) {
        Ok(()) => 0,
        Err(WrongLength) => BROKEN,
    }
}

// Any bytes, to any history. A refused record leaves every byte.
pub fn gamiwhoru_submit(history: &mut [u8], s: &[u8]) -> Reply
    ensures { Handed history.old s.now result history.new }
{
    Reply::from(submit(history, s))
}

// The bytes of the record that the numbers are, into the buffer from its start. A refused call leaves every byte of it.
pub fn gamiwhoru_write(fields: &[u64], buffer: &mut [u8]) -> WriteReply
    ensures { Replies fields.now buffer.old result buffer.new }
{
    WriteReply::from(write(fields, buffer))
}

// The record s in an edition of views, 1 or 9, into the buffer from its start. A refused call leaves every byte of it.
pub fn gamiwhoru_convert(edition: u8, s: &[u8], buffer: &mut [u8]) -> WriteReply
    ensures { ConvertReplies edition s.now buffer.old result buffer.new }
{
    write_reply(convert(edition, s, buffer))
}

#[repr(C)]
#[derive(Clone, Copy)]
pub struct FindingReply {
    pub state: u8,
    // 1, 3, 4 or 5.
    pub name: usize,
    pub node: u8,
    pub index: usize,
    // 0 for LG-04, as it is noted.
    pub term: u32,
}

impl From<Found> for FindingReply {
    ghost from_gives = { λ f r. r ≡ finding_reply (Some f) };

    fn from(f: Found) -> FindingReply {
        FindingReply {
            state: HERE,
            name: f.name,
            node: f.node.0,
            index: f.index.0,
            term: f.term.0,
        }
    }
}

impl Stated for FindingReply {
    ghost nothing = { no_finding };

    fn nothing(state: u8) -> FindingReply {
        FindingReply {
            state,
            name: 0,
            node: 0,
            index: 0,
            term: 0,
        }
    }
}

// The n-th printed finding, counted from 0.
pub fn gamiwhoru_finding(history: &[u8], n: usize) -> FindingReply
    ensures { result ≡ finding_out history.now n }
{
    reply(history, |history| finding_at(history, n))
}

#[repr(C)]
#[derive(Clone, Copy)]
pub struct LeaderReply {
    pub state: u8,
    pub term: u32,
    pub leader: u8,
}

impl From<Leader> for LeaderReply {
    ghost from_gives = { λ l r. r ≡ leader_reply (Some l) };

    fn from(l: Leader) -> LeaderReply {
        LeaderReply {
            state: HERE,
            term: l.term.0,
            leader: l.leader.0,
        }
    }
}

impl Stated for LeaderReply {
    ghost nothing = { no_leader };

    fn nothing(state: u8) -> LeaderReply {
        LeaderReply {
            state,
            term: 0,
            leader: 0,
        }
    }
}

// The n-th printed leader, counted from 0.
pub fn gamiwhoru_leader(history: &[u8], n: usize) -> LeaderReply
    ensures { result ≡ leader_out history.now n }
{
    reply(history, |history| leader_at(history, n))
}

#[repr(C)]
#[derive(Clone, Copy)]
pub struct UnseenReply {
    pub state: u8,
    pub node: u8,
    pub index: usize,
}

impl From<Unseen> for UnseenReply {
    ghost from_gives = { λ u r. r ≡ unseen_reply (Some u) };

    fn from(u: Unseen) -> UnseenReply {
        UnseenReply {
            state: HERE,
            node: u.node.0,
            index: u.index.0,
        }
    }
}

impl Stated for UnseenReply {
    ghost nothing = { no_mark };

    fn nothing(state: u8) -> UnseenReply {
        UnseenReply {
            state,
            node: 0,
            index: 0,
        }
    }
}

// The n-th unseen mark, counted from 0.
pub fn gamiwhoru_unseen(history: &[u8], n: usize) -> UnseenReply
    ensures { result ≡ unseen_out history.now n }
{
    reply(history, |history| unseen_at(history, n))
}

#[repr(C)]
#[derive(Clone, Copy)]
pub struct UnknownReply {
    pub state: u8,
    pub index: usize,
}

impl From<LogIndex> for UnknownReply {
    ghost from_gives = { λ i r. r ≡ unknown_reply (Some i) };

    fn from(i: LogIndex) -> UnknownReply {
        UnknownReply {
            state: HERE,
            index: i.0,
        }
    }
}

impl Stated for UnknownReply {
    ghost nothing = { no_index };

    fn nothing(state: u8) -> UnknownReply {
        UnknownReply { state, index: 0 }
    }
}

// The n-th unknown index, counted from 0.
pub fn gamiwhoru_unknown(history: &[u8], n: usize) -> UnknownReply
    ensures { result ≡ unknown_out history.now n }
{
    reply(history, |history| unknown_at(history, n))
}

#[repr(C)]
#[derive(Clone, Copy)]
pub struct CommittedReply {
    pub state: u8,
    pub length: usize,
    pub owner: u8,
}

// The committed prefix: its length and its owner, 0 and 0 where there is none. So it is no reply of an element that may be missing.
#[tactic(auto, using(crate::proofs::Printed::committed_here, crate::proofs::Printed::committed_broken))]
pub fn gamiwhoru_committed(history: &[u8]) -> CommittedReply
    ensures { result ≡ committed_out history.now }
{
    let Some(history) = stored(history) else {
        return CommittedReply {
            state: BROKEN,
            length: 0,
            owner: 0,
        };
    };
    let committed = printed_committed(history);
    CommittedReply {
        state: HERE,
        length: committed.length.0,
        owner: committed.owner.0,
    }
}
