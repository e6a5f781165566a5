// Results of parts, put together.
ghost use Rattle.std.specs.Prelude.{◌≡◌, IfOk};
ghost use Rattle.judged.specs.Judged as s;

use j2k_base::NoMemory;
use sqlite_items::{Boxed, Items};

/// Two results, where there are both.
pub fn both<A: Drop, B: Drop>(a: Option<A>, b: Option<B>) -> Option<(A, B)>
    ensures { result ≡ s.both a b }
{
    match (a, b) {
        (Some(a), Some(b)) => Some((a, b)),
        _ => None,
    }
}

/// One more result at the end of a row, or nothing where one isn't there.
pub fn joined<A: Drop>(
    done: Option<Items<A>>,
    more: Option<A>,
) -> Result<Option<Items<A>>, NoMemory>
    ensures { IfOk result (λ r. r ≡ s.ended done more) }
{
    let Some(mut done) = done else {
        return Ok(None);
    };
    let Some(more) = more else { return Ok(None) };
    done.push(more)?;
    Ok(Some(done))
}

/// As `joined`, for a result in a box.
pub fn joined_box<A: Drop>(
    done: Option<Items<A>>,
    more: Option<Boxed<A>>,
) -> Result<Option<Items<A>>, NoMemory>
    ensures { IfOk result (λ r. r ≡ s.ended done more) }
{
    let Some(mut done) = done else {
        return Ok(None);
    };
    let Some(more) = more else { return Ok(None) };
    done.push(more.into_inner())?;
    Ok(Some(done))
}
