//! Partitions of servers, and how entries of volumes are listed.

/// A partition of a server: its address, the first byte the highest, and its number, 0 to 255.
#[derive(Clone, Copy, Debug, PartialEq, Eq)]
pub struct Place {
    pub host: u32,
    pub partition: u32,
}

/// Which sites an entry is to have one of: those of this server or of any, on this partition or on any.
#[derive(Clone, Copy, Debug, PartialEq, Eq)]
pub struct SiteFilter {
    pub server: Option<u32>,
    pub partition: Option<u32>,
}

/// How entries are listed: without the line of their number, and by their ids instead of their names.
#[derive(Clone, Copy, Debug, PartialEq, Eq)]
pub struct Style {
    pub quiet: bool,
    pub unsorted: bool,
}
