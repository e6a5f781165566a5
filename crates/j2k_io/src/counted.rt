// Counting calls, of which some fail by a list.
ghost use Rattle.std.specs.Prelude.{◌≡◌, ◌+◌, ◌<◌, ◌≤◌, OnSome};
ghost use Rattle.j2k_io.specs.Calls.{last_call, keep_of, next_keep, calls_after};

use crate::Fails;

// How many bytes are kept where this call fails.
fn kept(failing: &Fails, call: u32) -> Option<u32>
    ensures { result ≡ keep_of failing.now call }
{
    failing
        .as_slice()
        .iter()
        .find(|fail| fail.call == call)
        .map(|fail| fail.keep)
}

// Counts a call, and answers how many bytes are kept where it fails.
#[tactic(auto, unfolding(crate::specs::Calls::next_keep, crate::specs::Calls::calls_after))]
pub fn next_call(failing: &Fails, calls: &mut u32) -> Option<u32>
    ensures keep { result ≡ next_keep failing.now calls.old }
    ensures counted { calls.new ≡ calls_after calls.old }
    ensures later { calls.old ≤ calls.new }
    ensures room { OnSome result (calls.old < last_call) }
    ensures one_more { OnSome result (calls.new ≡ calls.old + 1) }
{
    let call = calls.checked_add(1)?;
    *calls = call;
    kept(failing, call)
}
