//! Puts items back in order after they were dealt to shares in turns.
ghost use Rattle.std.specs.Prelude.{◌≡◌, ◌<◌, List, IfOk, vec_len};
ghost use Rattle.nw_intake.specs.Answers.{IsDealt};

use nw_digest::NoMemory;
use std::alloc::Global;
use std::collections::VecDeque;

/// All items of the shares, in order: one item of each share in turn. `count` is the number of items.
pub(crate) fn put_in_order<T: Drop>(
    alloc: Global,
    mut shares: Vec<VecDeque<T>>,
    count: usize,
) -> Result<Vec<T>, NoMemory>
    requires { 0 < vec_len shares }
    ensures { IfOk result
        (λ all. (whole : List T) → IsDealt whole count shares.items → all.items ≡ whole) }
{
    let workers = shares.len();
    let mut all = Vec::with_capacity(alloc, count)?;
    for place in 0..count {
        if let Some(item) = shares[place % workers].pop_front() {
            all.push(item)?;
        }
    }
    Ok(all)
}
