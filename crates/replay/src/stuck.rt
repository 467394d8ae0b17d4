// The threads that are stuck in a state of the gateway. A set of threads is a mask.
ghost use Rattle.std.specs.Prelude.{◌<◌};
ghost use Rattle.limits.specs.Limits.{max_threads};

use super::gateway::Gateway;
use super::lines::{Line, Way, line_at, number};
use super::thread::Thread;
use limits::MAX_THREADS;

// The sets of threads.
const SETS: u64 = 1 << MAX_THREADS;

fn member(set: u64, t: usize) -> bool
    requires { t < max_threads }
{
    set >> t & 1 == 1
}

// Whether a member other than t stands against a lock that t wants: against a hold who has it in any way, against a share who holds it.
fn barred_beside(gateway: &Gateway, set: u64, t: usize, lock: usize, way: Way) -> bool {
    gateway.threads.iter().enumerate().any(|(u, thread)| {
        u != t
            && member(set, u)
            && match way {
                Way::Hold => thread.has(lock),
                Way::Share => thread.holds(lock),
            }
    })
}

// Whether the next step of thread t may not be beside the members of a set. Only the begin of a hold or a share can be refused.
fn refused(gateway: &Gateway, set: u64, t: usize, thread: &Thread) -> bool {
    let at = thread.place();
    match line_at(gateway.text, at) {
        Line::Take(way) => barred_beside(gateway, set, t, number(gateway.text, at), way),
        _ => false,
    }
}

// Whether a set is stuck: every member could step by itself, and beside the other members none may. No thread stands against itself, not even one that wants to
// hold what it shares: so a set of one thread is not stuck.
fn stuck(gateway: &Gateway, set: u64) -> bool {
    let mut threads = gateway.threads.iter().enumerate();
    set != 0 && threads.all(|(t, thread)| !member(set, t) || refused(gateway, set, t, thread))
}

// The largest stuck set, which contains every other: all stuck sets joined.
pub fn largest(gateway: &Gateway) -> u64 {
    (0..SETS)
        .filter(|set| stuck(gateway, *set))
        .fold(0, |all, set| all | set)
}
