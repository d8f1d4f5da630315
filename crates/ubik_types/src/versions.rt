//! The version of a database.
ghost use Rattle.std.specs.Prelude.{◌≡◌, ◌↔◌, ◌||◌, IsTrue, if◌then◌else◌};
ghost use Rattle.std.specs.Ordering.{partial_lt, partial_le};
ghost use Rattle.ubik_types.specs.declared.versions.Version.{Version};
ghost use Rattle.ubik_types.specs.Version.{version_lt, version_eq};

/// The greatest counter, and the greatest epoch.
pub const MAX_COUNTER: u32 = 2_147_483_647;

/// A version of a database: the moment at which a sync site made the epoch, and a count of the changes in
/// it. Both are below 2^31. Versions are ordered by epoch, then by counter (Kazar, "Ubik").
#[derive(Clone, Copy, Debug, PartialEq, Eq, PartialOrd, Ord, Hash)]
pub struct Version {
    pub epoch: u32,
    pub counter: u32,
}

/// The comparisons of versions in code are those of the definitions: `a < b` tells whether `a` comes before `b`,
/// `a <= b` whether it comes before `b` or equals it, and `a == b` whether they are one version.
pub fn versions_compare_as_defined()
    ensures before { (a b : Version) → partial_lt ⟦<Version as PartialOrd>⟧.partial_cmp a b ≡ version_lt a b }
    ensures not_after { (a b : Version)
        → partial_le ⟦<Version as PartialOrd>⟧.partial_cmp a b ≡ (version_lt a b || version_eq a b) }
    ensures equal { (a b : Version) → ⟦<Version as PartialEq>⟧.eq a b ≡ version_eq a b }
    ensures one { (a b : Version) → IsTrue (version_eq a b) ↔ (a ≡ b) }
{}
