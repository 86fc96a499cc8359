// Recording: the public call that records which records `stch` has multiplied, and whether each is repeated or not when the line is stretched.
#![tactic(auto)]

ghost use Rattle.std.specs.Prelude.{◌≡◌, length};
ghost use Rattle.laws.specs.Rows.{first};
ghost use Rattle.refusals.specs.Numbers.{said};
ghost use Rattle.recording.specs.Recorded.{new_action_lem, new_actions, some, rows_of, record_request, Recording};

use letters::Action;
use refusals::{Refusal, Verdict};

// The action of a record afterwards.
fn new_action(multiplied: u8, component: u8, action: u8) -> u8
    ensures { result ≡ new_action_lem multiplied component action }
{
    if multiplied == 0 {
        return action;
    }
    if component % 2 == 0 {
        return Action::FIXED.0;
    }
    Action::REPEATING.0
}

// Records each multiplied record, and says whether there was any. Every action is stored, the old one or the new one, so that the compiler can do many at once.
fn record_all(multiplied: &[u8], components: &[u8], actions: &mut [u8]) -> bool
    requires { (length multiplied.now ≡ length components.now) × (length multiplied.now ≡ length actions.old) }
    ensures any { result ≡ some multiplied.now }
    ensures stored { actions.new ≡ new_actions multiplied.now components.now actions.old }
{
    let mut any = false;
    for i in 0..multiplied.len() {
        any |= multiplied[i] != 0;
        actions[i] = new_action(multiplied[i], components[i], actions[i]);
    }
    any
}

// The refusal of columns of `n`, `m` and `k` records.
fn refused(n: usize, m: usize, k: usize) -> Verdict
    ensures { said result ≡ first (rows_of n m k) }
{
    if (n != m) | (n != k) {
        return Err(Refusal::Uneven);
    }
    if refusals::LINE_LIMIT < n {
        return Err(Refusal::TooLong);
    }
    Ok(())
}

// Records what `stch` has multiplied: a record with an odd component number is repeated, any other is fixed. Without a mask of `stch` nothing is recorded.
// Says whether any record was recorded.
pub fn record_stch(
    mask: u32,
    multiplied: &[u8],
    components: &[u8],
    actions: &mut [u8],
) -> Result<bool, Refusal>
    ensures { let q = record_request mask multiplied.now components.now in
        Recording q actions.old result actions.new }
{
    refused(multiplied.len(), components.len(), actions.len())?;
    if mask == 0 {
        return Ok(false);
    }
    Ok(record_all(multiplied, components, actions))
}
