//! What the value of a switch is to be, and what a word of that form is read as.
ghost use Rattle.std.specs.Prelude.{◌≡◌, IfOk};
ghost use Rattle.std.specs.Option.{option_copied};
ghost use Rattle.afs_commands.specs.Forms.{access_in, entry_in, group_id_of, name_of, number_in, signed_in, user_id_of, value_of, volume_in};

use crate::accesses::Access;
use crate::entries::Entry;
use crate::partitions::partition;
use crate::volumes::{MAX_NAME, Volume};
use host_words::address;
use script_words::{number_within, signed_number};
use std::alloc::Global;
use ubik_types::NoMemory;

/// The most bytes of the name of a volume that is made.
pub const MAX_NEW_VOLUME: usize = 22;

/// The highest id of a volume that is made: those of its read-only and its backup volume come behind it.
pub const MAX_NEW_ID: u32 = 2_147_483_645;

/// What a value is to be.
#[derive(Clone, Copy, Debug, PartialEq, Eq)]
pub enum Form {
    /// The name of a volume that is made: at most 22 bytes.
    NewVolume,
    /// The id of a volume that is made: 1 to 2147483645, so that two more fit behind it.
    NewVolumeId,
    /// The name of a volume, or its id below 2^32.
    Volume,
    /// A dotted address.
    Address,
    /// The letters or the number of a partition.
    Partition,
    /// The name of a user or group that is made: at most 255 bytes.
    NewName,
    /// The name of a user or group, or its id of 32 bits.
    Entry,
    /// The id of a user that is made: 1 to 2147483647.
    UserId,
    /// The id of a group that is made: -2147483647 to -1.
    GroupId,
    /// A number of 32 bits with a sign.
    Signed,
    /// Five letters of access.
    Access,
}

/// What a word was read as.
#[derive(Drop)]
pub enum Value {
    /// The word itself, which is a name that is made, or stands for a flag.
    Word,
    /// An address, a partition, or the id of a volume that is made.
    Number(u32),
    Volume(Volume),
    Entry(Entry),
    /// The id of a user or group that is made, or a number with a sign.
    Signed(i32),
    Access(Access),
}

impl Form {
    /// What a word is read as; none where it does not have the form.
    pub fn read(self, alloc: Global, word: &[u8]) -> Result<Option<Value>, NoMemory>
        ensures { IfOk result (λ value. value ≡ value_of self word.now) }
    {
        Ok(match self {
            Form::NewVolume => name(word, MAX_NEW_VOLUME),
            Form::NewVolumeId => number_within(word, 1, MAX_NEW_ID).map(|id| Value::Number(id)),
            Form::Volume => Volume::read(alloc, word)?.map(|volume| Value::Volume(volume)),
            Form::Address => address(word).map(|host| Value::Number(host)),
            Form::Partition => partition(word).map(|number| Value::Number(number)),
            Form::NewName => name(word, MAX_NAME),
            Form::Entry => Entry::read(alloc, word)?.map(|entry| Value::Entry(entry)),
            Form::UserId => user_id(word).map(|id| Value::Signed(id)),
            Form::GroupId => group_id(word).map(|id| Value::Signed(id)),
            Form::Signed => signed_number(word).map(|number| Value::Signed(number)),
            Form::Access => Access::read(word).map(|access| Value::Access(access)),
        })
    }
}

/// A name of at most so many bytes.
fn name(word: &[u8], most: usize) -> Option<Value>
    ensures { result ≡ name_of most word.now }
{
    if word.len() <= most {
        Some(Value::Word)
    } else {
        None
    }
}

/// The id of a user that is made.
fn user_id(word: &[u8]) -> Option<i32>
    ensures { result ≡ user_id_of word.now }
{
    i32::try_from(number_within(word, 1, i32::MAX.unsigned_abs())?).ok()
}

/// The id of a group that is made.
fn group_id(word: &[u8]) -> Option<i32>
    ensures { result ≡ group_id_of word.now }
{
    match word {
        [b'-', digits @ ..] => {
            let number = number_within(digits, 1, i32::MAX.unsigned_abs())?;
            0i32.checked_sub_unsigned(number)
        }
        _ => None,
    }
}

impl Value {
    /// The number, where it is one.
    pub fn number(&self) -> Option<u32>
        ensures { result ≡ number_in self.now }
    {
        match self {
            Value::Number(number) => Some(*number),
            _ => None,
        }
    }

    /// The volume, where it is one.
    pub fn volume(&self) -> Option<&Volume>
        ensures { option_copied result ≡ volume_in self.now }
    {
        match self {
            Value::Volume(volume) => Some(volume),
            _ => None,
        }
    }

    /// The user or group, where it is one.
    pub fn entry(&self) -> Option<&Entry>
        ensures { option_copied result ≡ entry_in self.now }
    {
        match self {
            Value::Entry(entry) => Some(entry),
            _ => None,
        }
    }

    /// The number with a sign, where it is one.
    pub fn signed(&self) -> Option<i32>
        ensures { result ≡ signed_in self.now }
    {
        match self {
            Value::Signed(number) => Some(*number),
            _ => None,
        }
    }

    /// The access, where it is one.
    pub fn access(&self) -> Option<Access>
        ensures { result ≡ access_in self.now }
    {
        match self {
            Value::Access(access) => Some(*access),
            _ => None,
        }
    }
}
