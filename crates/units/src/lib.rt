// The units of the log history: node, index and term, each a tuple struct over one number, as in the Rust, and the prefix, told by
// its number. No unit converts into another. The limits are those of document 01, "Sizes of things".
#![tactic(auto)]

ghost use Rattle.std.specs.Prelude.{◌≡◌};
ghost use Rattle.units.specs.Units.{node_of, index_of};

// The greatest node.
pub const LAST_NODE: u8 = 63;

// How many nodes there are.
pub const NODE_COUNT: usize = LAST_NODE as usize + 1;

// The greatest index; a count and a length have the same limit.
pub const INDEX_LIMIT: usize = 256;

// The most bytes of an entry's content.
pub const CONTENT_LIMIT: usize = 32;

// How many distinct nonempty prefixes a history holds.
pub const PREFIX_LIMIT: usize = 512;

// How many certificates a history holds.
pub const CERTIFICATE_LIMIT: usize = 64;

// How many distinct findings a history holds.
pub const FINDING_LIMIT: usize = 128;

// How many pairs of leader and term a history keeps a log for.
pub const LEADER_LOG_LIMIT: usize = 64;

// A server of the cluster, 0 to 63. The limit is no invariant of the type: a stored row holds any byte there until the storage rules are
// tested. So a function that finds a row by its node asks for it.
#[derive(Clone, Copy, PartialEq, Eq, PartialOrd, Ord)]
pub struct NodeId(pub u8);

// A place in a log, 1 to 256; zero stands before the first entry. A type for those from 1 on would be a second one with the same
// functions, so those that find an entry's row by it ask for it. Nor is 256 the type's limit: a stored row holds any two bytes.
#[derive(Clone, Copy, PartialEq, Eq, PartialOrd, Ord)]
pub struct LogIndex(pub usize);

// A term of the election clock. Every number of 32 bits is one.
#[derive(Clone, Copy, PartialEq, Eq, PartialOrd, Ord)]
pub struct Term(pub u32);

// A prefix of a log, by the number under which it is stored, 1 to 512, or 0 for the empty one (the Rust's witness, a chain of shared
// nodes). Row k holds number k + 1. Where it is compared with a count of rows, or finds its row, its number is taken out: clauses
// bound that number, and a conversion would have the same clause.
#[derive(Clone, Copy, PartialEq, Eq, PartialOrd, Ord)]
pub struct LogPrefixWitness(pub usize);

// The number is above its unit's limit.
#[derive(Clone, Copy, PartialEq, Eq)]
pub struct OutOfLimit;

impl NodeId {
    // The greatest node.
    pub const LAST: NodeId = NodeId(LAST_NODE);
}

impl TryFrom<u8> for NodeId {
    type Error = OutOfLimit;

    ghost try_from_gives = { λ n result. result ≡ node_of n };

    fn try_from(n: u8) -> Result<NodeId, OutOfLimit> {
        if n <= LAST_NODE {
            Ok(NodeId(n))
        } else {
            Err(OutOfLimit)
        }
    }
}

impl TryFrom<usize> for LogIndex {
    type Error = OutOfLimit;

    ghost try_from_gives = { λ n result. result ≡ index_of n };

    fn try_from(n: usize) -> Result<LogIndex, OutOfLimit> {
        if n <= INDEX_LIMIT {
            Ok(LogIndex(n))
        } else {
            Err(OutOfLimit)
        }
    }
}

impl LogIndex {
    // No entry: the index before the first.
    pub const ZERO: LogIndex = LogIndex(0);

    // The greatest index.
    pub const LAST: LogIndex = LogIndex(INDEX_LIMIT);
}

impl From<u32> for Term {
    ghost from_gives = { λ n result. result.0 ≡ n };

    fn from(n: u32) -> Term {
        Term(n)
    }
}

impl Term {
    // The term before every election. Among commit terms it says "not known", and no Option does: where an election is checked, a
    // recorded zero is a term below every other.
    pub const ZERO: Term = Term(0);
}

impl LogPrefixWitness {
    // The empty prefix: no number is stored for it.
    pub const EMPTY: LogPrefixWitness = LogPrefixWitness(0);
}
