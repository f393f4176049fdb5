//! A file under a lock, by what each call makes of its bytes.

ghost use Rattle.std.specs.Prelude.{◌≡◌, ◌≤◌, Option, IfOk, IfErr, OnOk, OnErr, IfSome, length};
ghost use Rattle.iceoryx2_file_log.specs.Errors.{IsOfFile};
ghost use Rattle.iceoryx2_file_log.specs.Medium.{Known, Becomes, IsFree, IsLocked, Tries, Unlocks, Reads};
ghost use Rattle.iceoryx2_file_log.specs.Medium.{MayChangeFrom, Writes, WritesSome, CutsTo, Synchronizes};
ghost use Rattle.iceoryx2_file_log.specs.Medium.{KeepsAlone, KeepsInTurn, MoreKeeps, CutKeeps};
ghost use Rattle.iceoryx2_file_log.specs.Turns.{TurnsKeep};

use crate::error::FileFault;

/// The bytes of a log's file, which processes share, by one of its handles. Between a lock that is
/// granted and `unlock`, or the end of the process, nobody else changes them.
///
/// All handles that share the file keep one rule. The header, and the whole entries behind it when the
/// lock was granted, stay at each moment after that, except for marks (`MayChangeFrom`). So they are
/// there when the next lock is granted, whatever became of the handle that had the lock before
/// (`Grants`).
pub trait Medium {
    /// The handle's knowledge of the bytes, if any contract has it.
    ghost known: { Self → Option Known };

    /// Tries to take the lock, and returns the number of bytes if it is granted. An `Err` takes no lock.
    fn try_lock(&mut self) -> Result<Option<u64>, FileFault>
        requires { IfSome (known self.old) IsFree }
        ensures tries { Tries result (known self.old) (known self.new) }
        ensures file { IfErr result IsOfFile };

    /// Lets go of the lock.
    fn unlock(&mut self)
        ensures { Becomes Unlocks (known self.old) (known self.new) };

    /// Reads bytes from this place on, and returns their number. It returns 0 only if none are left, or
    /// none are wanted.
    fn read_at(&mut self, out: &mut [u8], at: u64) -> Result<usize, FileFault>
        requires { IfSome (known self.old) IsLocked }
        ensures within { IfOk result (λ count. count ≤ length out.old) }
        ensures reads { IfOk result (λ count. IfSome (known self.old) (Reads at count out.new)) }
        ensures same { known self.new ≡ known self.old }
        ensures file { IfErr result IsOfFile };

    /// Writes the bytes at this place. An `Err` may leave the first ones of them.
    fn write_all_at(&mut self, bytes: &[u8], at: u64) -> Result<(), FileFault>
        requires { IfSome (known self.old) (MayChangeFrom at) }
        ensures ok { OnOk result (Becomes (Writes at bytes.now) (known self.old) (known self.new)) }
        ensures err { OnErr result (Becomes (WritesSome at bytes.now) (known self.old) (known self.new)) };

    /// Cuts off all bytes from this place on. An `Err` changes nothing.
    fn set_len(&mut self, at: u64) -> Result<(), FileFault>
        requires { IfSome (known self.old) (MayChangeFrom at) }
        ensures ok { OnOk result (Becomes (CutsTo at) (known self.old) (known self.new)) }
        ensures err { OnErr result (known self.new ≡ known self.old) };

    /// Makes all bytes outlive the machine from then on. An `Err` changes nothing.
    fn sync(&mut self) -> Result<(), FileFault>
        ensures ok { OnOk result (Becomes Synchronizes (known self.old) (known self.new)) }
        ensures err { OnErr result (known self.new ≡ known self.old) };
}

/// The laws that keep the rule of all handles that share a file.
pub fn laws_of_media()
    ensures alone { KeepsAlone }
    ensures in_turn { KeepsInTurn }
    ensures more { MoreKeeps }
    ensures cut { CutKeeps }

    // So do any number of handles that change it only where they may, one after the other, each of which may be killed
    // at any moment: what the next lock finds is what `try_lock` says.
    ensures turns { TurnsKeep }
{}
