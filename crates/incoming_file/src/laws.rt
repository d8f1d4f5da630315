//! Laws of the incoming file: each is the clause of a call that does nothing.
ghost use Rattle.incoming_file.specs.Laws.{HasOneReading, KeptFileIsOpen, ShortFileIsIgnored};

/// An open incoming file has one version and one image.
pub fn open_file_has_one_reading()
    ensures { HasOneReading }
{}

/// A label and an image that are kept with an open gate are an open incoming file, of that version and that image.
pub fn kept_file_is_open()
    ensures { KeptFileIsOpen }
{}

/// Fewer bytes than a label has are ignored.
pub fn short_file_is_ignored()
    ensures { ShortFileIsIgnored }
{}
