//! Laws of the definitions that the contracts cite.
ghost use Rattle.std.specs.Prelude.{◌≡◌, ℕ, List, []};
ghost use Rattle.prdb_layout.specs.Records.{Holds, registry_in, whole};
ghost use Rattle.prdb_layout.specs.Registry.{Registry, first_registry};

/// The empty image holds the first registry, which is valid.
pub fn law_empty_holds_the_first()
    ensures { Holds [] first_registry }
{}

/// An image holds one registry at most, which is a function of its bytes.
pub fn law_image_tells_its_registry()
    ensures { (image : List ℕ) (r : Registry) → Holds image r → r ≡ registry_in (whole image) }
{}
