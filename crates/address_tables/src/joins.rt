//! What counts where two tables have a value.

ghost use Rattle.std.specs.Prelude.{◌≡◌, Option, None};
ghost use Rattle.std.specs.Option.{option_or};

/// Which value counts at an address, by those of two tables there.
pub trait Join<V> {
    ghost joined: { Option V → Option V → Option V };

    ghost nothing: { joined None None ≡ None };

    /// Where neither table has a value there is none.
    fn joined(a: Option<V>, b: Option<V>) -> Option<V>
        ensures { result ≡ joined a b };
}

/// The first table's value, and where it has none the second one's.
#[derive(Clone, Copy)]
pub struct First;

impl<V: Copy> Join<V> for First {
    ghost use Rattle.std.specs.Prelude.{refl};

    ghost joined = { option_or };

    ghost nothing = { refl };

    fn joined(a: Option<V>, b: Option<V>) -> Option<V>
        ensures { result ≡ option_or a b }
    {
        match a {
            None => b,
            Some(_) => a,
        }
    }
}
