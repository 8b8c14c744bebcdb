// The gate of the tests.
use snap_writers::Gate;
use std::sync::atomic::AtomicBool;
use std::sync::atomic::Ordering::SeqCst;
use std::thread;
use std::time::{Clock, Duration};

/// Which steps of workers pass.
#[derive(Drop)]
pub enum Steps<'a, C: Clock + Sync> {
    All,
    None,
    /// All but this step of this worker.
    Others {
        worker: u32,
        step: u32,
    },
    /// Worker 1's first step passes once worker 2's second has, and that once the first has been asked for.
    /// Both hold only where the two are on their way at once. Each waits for at most 60,000 sleeps of a
    /// millisecond, and is stopped then.
    Meeting {
        clock: &'a C,
        asked: AtomicBool,
        passed: AtomicBool,
    },
}

fn wait_for<C: Clock>(clock: &C, flag: &AtomicBool) -> bool {
    for _ in 0..60_000 {
        if flag.load(SeqCst) {
            return true;
        }
        thread::sleep(clock, Duration::from_millis(1));
    }
    false
}

impl<'a, C: Clock + Sync> Gate for Steps<'a, C> {
    ghost answers = { λ _ _ _ _. Unit {0} };

    fn pass(&self, worker: u32, step: u32) -> bool {
        match self {
            Steps::All => true,
            Steps::None => false,
            Steps::Others {
                worker: stopped,
                step: last,
            } => (worker, step) != (*stopped, *last),
            Steps::Meeting {
                clock,
                asked,
                passed,
            } => match (worker, step) {
                (1, 1) => {
                    asked.store(true, SeqCst);
                    wait_for(*clock, passed)
                }
                (2, 2) => {
                    let passes = wait_for(*clock, asked);
                    passed.store(passes, SeqCst);
                    passes
                }
                _ => true,
            },
        }
    }
}
