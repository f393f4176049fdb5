//! The verdict on a table of settings.

ghost use Rattle.std.specs.Prelude.{◌≡◌};
ghost use Rattle.iceoryx2_rounds.specs.Verdict.{and_then};

/// The verdict of a table, a row each setting in order: how it is compared, its name, and its error.
#[macro_export]
macro_rules! verdict_of_rows {
    ($demand:ident, $existing:ident, $kind:ident; $need:ident $setting:ident $error:ident;) => {
        $need(
            $demand.marks.$setting,
            $existing.$setting,
            $demand.settings.$setting,
            $kind::$error,
        )
    };
    ($demand:ident, $existing:ident, $kind:ident;
        $need:ident $setting:ident $error:ident; $($rows:tt)+) => {
        $crate::settings::first_refusal(
            $crate::verdict_of_rows!($demand, $existing, $kind; $need $setting $error;),
            $crate::verdict_of_rows!($demand, $existing, $kind; $($rows)+),
        )
    };
}

/// Sets a setting of what is asked to this value, and marks it.
#[macro_export]
macro_rules! ask_for {
    ($demand:expr; $setting:ident = $value:expr) => {{
        $demand.settings.$setting = $value;
        $demand.marks.$setting = true;
    }};
}

/// A record with these of the settings, and with other fields.
#[macro_export]
macro_rules! settings_of {
    ($settings:expr => $($kind:ident)::+: $($setting:ident)*; $($field:ident: $value:expr),*) => {
        $($kind)::+ {
            $($setting: $settings.$setting,)*
            $($field: $value),*
        }
    };
}

/// Returns the first verdict, or the second if the first refuses nothing.
pub fn first_refusal<E: Copy>(first: Result<(), E>, second: Result<(), E>) -> Result<(), E>
    ensures { result ≡ and_then first second }
{
    match first {
        Ok(()) => second,
        Err(error) => Err(error),
    }
}
