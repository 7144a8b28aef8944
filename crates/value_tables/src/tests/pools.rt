//! States that a pool stores once.

ghost use Rattle.std.specs.Prelude.{◌≡◌, ◌<◌, IfOk};
ghost use Rattle.std.specs.FinMap.{empty, len};
ghost use Rattle.state_pool.specs.Uses.{AreBelow, IsInterned};

use super::states::is_same;
use abs_state::AbsState;
use state_pool::Pool;
use state_pool::laws::uses_are_counted;
use std::alloc::{AllocError, Global};

// The number of one more use of a state.
fn interned(pool: &mut Pool, alloc: Global, state: &AbsState) -> Result<u32, AllocError>
    requires few { len pool.old < 4294967295 }
    requires counts { AreBelow 4294967295 pool.old }
    ensures { IfOk result (λ number. IsInterned pool.old state.now number pool.new) }
{
    match pool.intern(state.copy(alloc)?) {
        Ok(number) => Ok(number),
        Err(_) => Err(AllocError),
    }
}

// Whether in an empty pool two equal states share a number until both are released, beside another state with another number.
fn is_kept_once(
    pool: &mut Pool,
    alloc: Global,
    state: &AbsState,
    other: &AbsState,
) -> Result<bool, AllocError>
    requires { pool.old ≡ empty }
{
    uses_are_counted();
    let one = interned(pool, alloc, state)?;
    let same = interned(pool, alloc, state)?;
    let next = interned(pool, alloc, other)?;
    let all = pool.len();
    let seen = is_same(pool.get(one), state);
    let seen_other = is_same(pool.get(next), other);
    drop(pool.release(one));
    let used_once = pool.len();
    let still_seen = is_same(pool.get(same), state);
    drop(pool.release(same));
    let left = pool.len();
    let left_seen = is_same(pool.get(next), other);
    drop(pool.release(next));
    Ok(
        [same == one, next == one] == [true, false]
            && [seen, seen_other, still_seen, left_seen] == [true; 4]
            && [all, used_once, left, pool.len()] == [2, 2, 1, 0],
    )
}

/// Whether two equal states are stored once beside another.
pub fn is_kept(alloc: Global, state: &AbsState, other: &AbsState) -> bool {
    let mut pool = Pool::new(alloc);
    matches!(is_kept_once(&mut pool, alloc, state, other), Ok(true))
}
