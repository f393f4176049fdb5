//! What C holds of a session: its pointer.

ghost use Rattle.std.specs.Prelude.{◌≡◌, Option, Some, None, IsSome};
ghost use Rattle.wulameron_c.specs.Pointers.{pointer_owns, session_coded};
ghost use Rattle.wulameron_c.specs.declared.table_session.TableSession.{TableSession};

use crate::raw_box::RawBox;
use crate::table_session::TableSession;
use std::alloc::Global;
use std::marker::Model;

/// A session by its pointer, or none. C sees the pointer alone: a `Global` takes no bytes.
#[repr(C)]
#[derive(Drop)]
pub struct SessionPointer {
    pointer: *mut u8,
    alloc: Global,
    pub ghost session: { Option TableSession } by { session_coded },
}

impl Model for SessionPointer {
    ghost also_owns = { λ held. pointer_owns held.alloc held.pointer held.session };
}

impl SessionPointer {
    /// None.
    pub(crate) fn null(alloc: Global) -> SessionPointer
        ensures { result.session ≡ None }
    {
        SessionPointer {
            pointer: std::ptr::null_mut(),
            alloc,
        }
    }

    /// Returns the session of a raw box.
    pub(crate) fn of(raw: RawBox<TableSession, Global>) -> SessionPointer
        ensures { result.session ≡ Some raw.value }
    {
        let RawBox { pointer, alloc } = raw;
        SessionPointer {
            pointer: pointer as *mut u8,
            alloc,
        }
    }

    /// Returns the raw box of the session.
    pub(crate) fn into_raw_box(self) -> RawBox<TableSession, Global>
        requires { IsSome self.session }
        ensures { Some result.value ≡ self.session }
    {
        let SessionPointer { pointer, alloc } = self;
        RawBox {
            pointer: pointer as *mut TableSession,
            alloc,
        }
    }
}
