//! The setters of a builder, one after the other.

ghost use Rattle.std.specs.Prelude.{◌≡◌};
ghost use Rattle.iceoryx2_session.specs.Setters.{with_settings as set_all};

/// A builder with named setters.
pub trait HasSetters {
    /// A setter's name, with its value.
    type Setting: Drop;

    /// The builder after one setter.
    ghost with_setting: { Self → Self.Setting → Self };

    /// Calls one setter, by its name.
    fn with_setting(self, setting: Self::Setting) -> Self
        ensures { result ≡ with_setting self setting };
}

/// Returns the builder after each setter, in order.
pub fn with_settings<B: HasSetters>(mut builder: B, settings: Vec<B::Setting>) -> B
    ensures { result ≡ set_all B.with_setting builder settings.items }
{
    for setting in settings {
        builder = builder.with_setting(setting);
    }
    builder
}
