// The n-th view of the appendix is found by its number, and none is stored: the views of as many entries are counted to base 4,
// and each digit of their number is an entry, since four entries are listed.
ghost use Rattle.std.specs.Prelude.{ℕ, ◌≡◌, ◌<◌, ◌≤◌, ◌-◌};
ghost use Rattle.appendix_views.specs.Views.{entry_of, view_count};
ghost use Rattle.appendix_views.specs.Counted.{digit, place_of, choice};

// How many views there are.
pub const VIEWS: usize = 85;

// An entry that is listed. Its content is the byte 00 where it is filled, else empty.
#[derive(Clone, Copy, PartialEq)]
pub struct Listed {
    pub term: u32,
    pub filled: bool,
}

// A view: how many entries it has, and its number among the views of as many, counted from 0.
#[derive(Clone, Copy)]
pub struct View {
    pub count: usize,
    pub number: usize,
}

// The n-th view, counted from 0.
pub fn nth(n: usize) -> View
    requires { n < view_count }
    ensures { result ≡ place_of n }
{
    if n < 1 {
        View {
            count: 0,
            number: n,
        }
    } else if n < 5 {
        View {
            count: 1,
            number: n - 1,
        }
    } else if n < 21 {
        View {
            count: 2,
            number: n - 5,
        }
    } else {
        View {
            count: 3,
            number: n - 21,
        }
    }
}

// The digit of a number to base 4 that has `place` digits behind it: one of its last three.
fn digit(number: usize, place: usize) -> usize
    ensures { result ≡ digit number place }
{
    match place {
        0 => number % 4,
        1 => number / 4 % 4,
        _ => number / 16 % 4,
    }
}

impl View {
    // Its entry of an index, one that it has.
    pub fn entry(&self, index: usize) -> Listed
        requires { index ≤ self.now.count }
        ensures { entry_of result ≡ choice (digit self.now.number (self.now.count - index)) }
    {
        let d = digit(self.number, self.count - index);
        Listed {
            term: if d < 2 { 1 } else { 2 },
            filled: d % 2 == 1,
        }
    }
}
