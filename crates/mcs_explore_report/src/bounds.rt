//! The number of states at which a search has to stop, so that it does not exceed its budget.
use mcs_explore_script::UserScript;
use mcs_users::Users;

/// Returns an upper bound of the turns from a state, by the number of cores and by users. Each user
/// has at most two: its thread enters on the core of its context alone, and since the user moved
/// that core picked its next entry, or once more the one in which it waited. The user of the last
/// line has one, since no core has an earlier pick of it; so has each user before the first line.
/// With one core each user has one, since a line drops what its core picked before; with the serial
/// schedule there is one in all.
fn most_turns(cores: u8, users: &Users) -> usize {
    let count = users.lists().len();
    if cores > 1 {
        count.saturating_mul(2).saturating_sub(1)
    } else if users.are_serial() {
        1
    } else {
        count
    }
}

/// Returns at how many states a search expands no more, so that it finds at most `states`: fewer
/// than this were found before the last expansion, which adds at most one for each turn. The start
/// is found in any case.
pub fn states_before(script: &UserScript, states: usize) -> usize {
    let most = most_turns(script.boot.cores(), &script.users);
    states.saturating_sub(most).saturating_add(1).min(states)
}
