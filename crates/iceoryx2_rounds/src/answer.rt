//! The factory that a granted call hands out.

ghost use Rattle.std.specs.Prelude.{◌≡◌, IfOk, true};

use crate::port_factory::Registration;
use crate::port_factory::factory::{Kind, PortFactory};
use iceoryx2_access::storage::Service;

/// Returns the factory of what a call registered at a service of the pattern, or the call's
/// refusal.
pub fn into_factory<S: Service, K: Kind, E>(
    answer: Result<Registration, E>,
) -> Result<PortFactory<S, K>, E>
    requires { IfOk answer (λ registration. K.is_of registration.description.pattern ≡ true) }
    ensures { result ≡ answer }
{
    let registration = match answer {
        Ok(registration) => registration,
        Err(error) => return Err(error),
    };
    Ok(PortFactory::new(registration))
}
