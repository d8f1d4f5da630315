//! The rules by which calls are refused (vlserver's names, VL_..; the numbers are own).

/// Another entry has one of the ids.
pub const ID_EXISTS: u32 = 363_520;

/// Another entry has the name.
pub const NAME_EXISTS: u32 = 363_522;

/// No entry has the name, or the id of the type.
pub const NO_ENTRY: u32 = 363_524;

/// No entry may have the name.
pub const BAD_NAME: u32 = 363_527;

/// The type of a volume is none.
pub const BAD_VOLUME_TYPE: u32 = 363_529;

/// A site has no server, or the address of a server is another one's.
pub const BAD_SERVER: u32 = 363_530;

/// No server has the partition.
pub const BAD_PARTITION: u32 = 363_531;

/// The entry has more sites than one may have.
pub const REPLICAS_FULL: u32 = 363_532;

/// The entry has no site.
pub const NO_REPLICA: u32 = 363_533;

/// Two of the sites are on one partition of one server, and the same volume lies on both.
pub const REPEATED_REPLICA: u32 = 363_534;

/// There are no places for the addresses of the sites.
pub const SIZE_EXCEEDED: u32 = 363_537;

/// The ids or the flags of the entry are none, or an entry has a site at the address.
pub const BAD_ENTRY: u32 = 363_538;

/// More volume ids are taken than a call may take, or than there are.
pub const BAD_BUMP: u32 = 363_539;

/// The entry is locked.
pub const ENTRY_LOCKED: u32 = 363_541;

/// No entry is locked for the operation.
pub const BAD_OPERATION: u32 = 363_542;

/// The mask names more than a lock has.
pub const BAD_RELEASE: u32 = 363_543;
