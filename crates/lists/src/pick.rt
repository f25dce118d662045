// The n-th of the places of a table that hold something, for every list that passes some places over.
ghost use Rattle.std.specs.Prelude.{◌≡◌, ℕ, Bool, Option, Some, None, cond, ◌<◌};
ghost use Rattle.lists.specs.Picked.{pick_from, Holds};

// What the n-th of the first m places that hold something holds, counted from 0. `held` says what a place holds. As
// `filter_map(held).nth(n)` it was tried, and the proof did not close: the library's law asks for what `held` answers at every number, and
// here that is known below m.
pub fn nth_held<T: Copy, F: Fn(usize) -> Option<T>>(m: usize, n: usize, held: F) -> Option<T>
    requires { (k : ℕ) → k < m → F.pre held k }
    ensures { (over : ℕ → Bool) (item : ℕ → T) → Holds (F.post held) m over item → result ≡ pick_from over (λ k. Some (item k)) None 0 m n }
{
    let mut left = n;
    for k in 0..m {
        let Some(x) = held(k) else {
            continue;
        };
        if left == 0 {
            return Some(x);
        }
        left -= 1;
    }
    None
}
