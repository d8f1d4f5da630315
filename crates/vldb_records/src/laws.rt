//! What the layout says of the empty image.
ghost use Rattle.std.specs.Prelude.{[]};
ghost use Rattle.vldb_entries.specs.Location.{first_location};
ghost use Rattle.vldb_records.specs.Records.{Holds};

/// The empty image holds the first state.
pub fn law_empty_image_holds_the_first()
    ensures { Holds [] first_location }
{}
