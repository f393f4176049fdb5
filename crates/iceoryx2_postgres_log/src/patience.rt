//! The time for which the server waits for a lock.

ghost use Rattle.std.specs.Prelude.{◌≡◌};
ghost use Rattle.iceoryx2_postgres_log.specs.Patience.{lock_wait};

/// Returns the number of milliseconds to which `lock_timeout` is set. It is the patience, but at least 1,
/// since the server takes 0 as no limit, and at most 2,147,483,647, since the server takes no more.
pub fn lock_wait(patience_millis: u64) -> u64
    ensures { result ≡ lock_wait patience_millis }
{
    patience_millis.max(1).min(2_147_483_647)
}
