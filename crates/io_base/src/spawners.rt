//! What starts the threads of a server, in a scope of the one that starts them.
ghost use Rattle.std.specs.Prelude.{◌≡◌, true, false};
ghost use Rattle.io_base.specs.declared.spawners.Started.{Started};

use std::thread::Scope;

/// How a start ended.
#[derive(Clone, Copy, Debug, PartialEq, Eq)]
pub enum Started {
    /// The job runs in a thread of the scope.
    Yes,
    /// It got no thread. The job is dropped, and has not run.
    Failed,
}

/// What a thread does.
pub trait Job: Send + Drop {
    fn run(self);
}

/// Shows that the machine had no thread for a job. It is made by `Spawner::start` alone.
#[derive(Drop)]
pub struct Missed(());

/// What starts threads.
pub trait Spawner: Sync {
    /// It may refuse to start a thread.
    ghost may_refuse: { Self → Type 0 };

    /// Whether the next job is to get a thread. Called by `start`.
    fn admits(&self) -> bool
        ensures refused { result ≡ false → may_refuse self.now };

    /// The machine had no thread for a job that was admitted. Called by `start`.
    fn missed(&self, missed: Missed)
        ensures refused { may_refuse self.now };

    /// Runs a job in a thread of the scope, which ends once all of its threads have ended.
    final fn start<'s, E: 's, J: Job + 's>(&self, scope: &'s Scope<'s, E>, job: J) -> Started
        ensures refused { result ≡ Started.Failed → may_refuse self.now }
    {
        if !self.admits() {
            return Started::Failed;
        }
        match scope.spawn(move || job.run()) {
            Ok(_) => Started::Yes,
            Err(_) => {
                self.missed(Missed(()));
                Started::Failed
            }
        }
    }
}

/// Starts each job in a thread of the machine's, which refuses where it has none.
#[derive(Clone, Copy)]
pub struct ThreadSpawner;

impl Spawner for ThreadSpawner {
    ghost may_refuse = { λ _. Unit {0} };

    fn admits(&self) -> bool
        ensures refused { result ≡ false → Unit {0} }
        ensures admitted { result ≡ true }
    {
        true
    }

    fn missed(&self, _missed: Missed) {}
}

/// Starts nothing.
#[derive(Clone, Copy)]
pub struct NoSpawner;

impl Spawner for NoSpawner {
    ghost may_refuse = { λ _. Unit {0} };

    fn admits(&self) -> bool
        ensures refused { result ≡ false → Unit {0} }
        ensures admitted { result ≡ false }
    {
        false
    }

    fn missed(&self, _missed: Missed) {}
}
