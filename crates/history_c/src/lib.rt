// The library `history` for callers in other languages, as a static library: under each name a call of the function of that
// name, with its clauses. include/gamiwhoru.h declares them for C.
#![tactic(auto)]

ghost use Rattle.std.specs.Prelude.{◌≡◌};
ghost use Rattle.storage_bytes.specs.Layout.{history_length};
ghost use Rattle.record_writing.specs.Writing.{Replies};
ghost use Rattle.record_editions.specs.Editions.{ConvertReplies};
ghost use Rattle.history.specs.Exports.{Handed, MadeFresh, finding_out, leader_out, unseen_out, unknown_out, committed_out};

use answers::numbers::Reply;
use history::exports;
use history::exports::{CommittedReply, FindingReply, LeaderReply, UnknownReply, UnseenReply};
use record_writing::reply::WriteReply;

// How many bytes a history has.
#[unsafe(no_mangle)]
pub extern "C" fn gamiwhoru_length() -> usize
    ensures { result ≡ history_length }
{
    exports::gamiwhoru_length()
}

// A fresh history: 0, or 12 where the bytes are not as many as a history has, and then they are left as they were.
#[unsafe(no_mangle)]
pub extern "C" fn gamiwhoru_fresh(history: &mut [u8]) -> u8
    ensures { MadeFresh history.old result history.new }
{
    exports::gamiwhoru_fresh(&mut history[..])
}

// Any bytes, to any history. A refused record leaves every byte.
#[unsafe(no_mangle)]
pub extern "C" fn gamiwhoru_submit(history: &mut [u8], s: &[u8]) -> Reply
    ensures { Handed history.old s.now result history.new }
{
    exports::gamiwhoru_submit(&mut history[..], s)
}

// The bytes of the record that the numbers are, into the buffer from its start. A refused call leaves every byte of it.
#[unsafe(no_mangle)]
pub extern "C" fn gamiwhoru_write(fields: &[u64], buffer: &mut [u8]) -> WriteReply
    ensures { Replies fields.now buffer.old result buffer.new }
{
    exports::gamiwhoru_write(fields, &mut buffer[..])
}

// The record s in an edition of views, 1 or 9, into the buffer from its start. A refused call leaves every byte of it.
#[unsafe(no_mangle)]
pub extern "C" fn gamiwhoru_convert(edition: u8, s: &[u8], buffer: &mut [u8]) -> WriteReply
    ensures { ConvertReplies edition s.now buffer.old result buffer.new }
{
    exports::gamiwhoru_convert(edition, s, &mut buffer[..])
}

// The n-th printed finding, counted from 0.
#[unsafe(no_mangle)]
pub extern "C" fn gamiwhoru_finding(history: &[u8], n: usize) -> FindingReply
    ensures { result ≡ finding_out history.now n }
{
    exports::gamiwhoru_finding(history, n)
}

// The n-th printed leader, counted from 0.
#[unsafe(no_mangle)]
pub extern "C" fn gamiwhoru_leader(history: &[u8], n: usize) -> LeaderReply
    ensures { result ≡ leader_out history.now n }
{
    exports::gamiwhoru_leader(history, n)
}

// The n-th unseen mark, counted from 0.
#[unsafe(no_mangle)]
pub extern "C" fn gamiwhoru_unseen(history: &[u8], n: usize) -> UnseenReply
    ensures { result ≡ unseen_out history.now n }
{
    exports::gamiwhoru_unseen(history, n)
}

// The n-th unknown index, counted from 0.
#[unsafe(no_mangle)]
pub extern "C" fn gamiwhoru_unknown(history: &[u8], n: usize) -> UnknownReply
    ensures { result ≡ unknown_out history.now n }
{
    exports::gamiwhoru_unknown(history, n)
}

// The committed prefix: its length and its owner, 0 and 0 where there is none.
#[unsafe(no_mangle)]
pub extern "C" fn gamiwhoru_committed(history: &[u8]) -> CommittedReply
    ensures { result ≡ committed_out history.now }
{
    exports::gamiwhoru_committed(history)
}
