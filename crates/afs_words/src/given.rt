//! The values of an operation's switches, by their places in its table.
ghost use Rattle.std.specs.Prelude.{◌≡◌, ◌<◌, length, map, option_map, option_and_then, slice_get, is_some, true, List, Some, IfOk, IsSome};
ghost use Rattle.std.specs.List.{list_all};
ghost use Rattle.std.specs.Option.{option_copied};
ghost use Rattle.afs_commands.specs.Accesses.{access_word};
ghost use Rattle.afs_commands.specs.Forms.{entry_in, signed_in, volume_in};
ghost use Rattle.afs_commands.specs.declared.forms.Form.TheVariants as form;
ghost use Rattle.afs_words.specs.Given.{values_at, value_at, flag_at, address_at, partition_at, new_id_at, number_at};
ghost use Rattle.afs_words.specs.Making.{AreIds};
ghost use Rattle.afs_words.specs.Taken.{read_at, read_by, takes_at};
ghost use Rattle.afs_words.specs.declared.tables.Takes.{Takes};
ghost use Rattle.afs_words.specs.declared.tables.Takes.TheVariants.{One, Many, EachOfFirst};

use crate::judged::Judged;
use crate::values::Word;
use afs_commands::{Access, Entry, Value, Volume};
use std::alloc::Global;
use ubik_types::{Bytes, NoMemory, bytes_of};

impl Judged {
    /// The values of the switch at a place.
    fn values(&self, place: usize) -> &[Word]
        requires { place < length self.now }
        ensures { result.now ≡ values_at self.now place }
    {
        self.as_slice()[place].values.as_slice()
    }

    /// What the values of the switch at a place were read as.
    fn read_at(&self, place: usize) -> &[Value]
        requires { place < length self.now }
        ensures { map Some result.now ≡ read_at self.now place }
    {
        self.read()[place].as_slice()
    }

    /// What the first value was read as; none where the switch was not given.
    fn first(&self, place: usize) -> Option<&Value>
        requires { place < length self.now }
        ensures { option_map Some (option_copied result) ≡ slice_get (read_at self.now place) 0 }
    {
        self.read_at(place).first()
    }

    /// Whether a flag was given.
    pub fn flag(&self, place: usize) -> bool
        requires { place < length self.now }
        ensures { result ≡ flag_at self.now place }
    {
        !self.values(place).is_empty()
    }

    /// The first value of a switch that was given.
    pub fn word(&self, place: usize) -> &[u8]
        requires { IsSome (value_at self.now place) }
        ensures { value_at self.now place ≡ Some result.now }
    {
        match self.values(place) {
            [first, ..] => first.as_bytes(),
            [] => unreachable!(),
        }
    }

    /// The values of a switch, as names.
    pub fn names(&self, alloc: Global, place: usize) -> Result<Vec<Bytes>, NoMemory>
        requires { place < length self.now }
        ensures { IfOk result (λ list. list.items ≡ values_at self.now place) }
    {
        names(alloc, self.values(place))
    }

    /// The address that a switch was given.
    pub fn address(&self, place: usize) -> Option<u32>
        requires { takes_at self.now place ≡ Some (One form.Address) }
        ensures { result ≡ address_at self.now place }
    {
        self.first(place)?.number()
    }

    /// The partition that a switch was given.
    pub fn partition(&self, place: usize) -> Option<u32>
        requires { takes_at self.now place ≡ Some (One form.Partition) }
        ensures { result ≡ partition_at self.now place }
    {
        self.first(place)?.number()
    }

    /// The id of a volume that is made.
    pub fn new_id(&self, place: usize) -> Option<u32>
        requires { takes_at self.now place ≡ Some (One form.NewVolumeId) }
        ensures { result ≡ new_id_at self.now place }
    {
        self.first(place)?.number()
    }

    /// The number of 32 bits that a switch was given.
    pub fn signed(&self, place: usize) -> Option<i32>
        requires { takes_at self.now place ≡ Some (One form.Signed) }
        ensures { result ≡ number_at self.now place }
    {
        self.first(place)?.signed()
    }

    /// The access that a switch was given.
    pub fn access(&self, place: usize) -> Option<Access>
        requires { takes_at self.now place ≡ Some (One form.Access) }
        ensures { option_map access_word result ≡ value_at self.now place }
    {
        self.first(place)?.access()
    }

    /// The volume of a switch that may be given.
    pub fn volume(&self, alloc: Global, place: usize) -> Result<Option<Volume>, NoMemory>
        requires { takes_at self.now place ≡ Some (One form.Volume) }
        ensures { IfOk result (λ volume. volume ≡ value_at self.now place) }
    {
        let Some(value) = self.first(place) else {
            return Ok(None);
        };
        match value.volume() {
            Some(volume) => Ok(Some(volume.copied(alloc)?)),
            None => unreachable!(),
        }
    }

    /// The user or group of a switch that may be given.
    pub fn entry(&self, alloc: Global, place: usize) -> Result<Option<Entry>, NoMemory>
        requires { takes_at self.now place ≡ Some (One form.Entry) }
        ensures { IfOk result (λ entry. entry ≡ value_at self.now place) }
    {
        let Some(value) = self.first(place) else {
            return Ok(None);
        };
        match value.entry() {
            Some(entry) => Ok(Some(entry.copied(alloc)?)),
            None => unreachable!(),
        }
    }

    /// The volumes that a switch was given.
    pub fn volumes(&self, alloc: Global, place: usize) -> Result<Vec<Volume>, NoMemory>
        requires { takes_at self.now place ≡ Some (Many form.Volume) }
        ensures { IfOk result (λ list. list.items ≡ values_at self.now place) }
    {
        volumes(alloc, self.read_at(place))
    }

    /// The users and groups that a switch was given.
    pub fn entries(&self, alloc: Global, place: usize) -> Result<Vec<Entry>, NoMemory>
        requires { takes_at self.now place ≡ Some (Many form.Entry) }
        ensures { IfOk result (λ list. list.items ≡ values_at self.now place) }
    {
        entries(alloc, self.read_at(place))
    }

    /// The ids of users that a switch was given.
    pub fn user_ids(&self, alloc: Global, place: usize) -> Result<Vec<i32>, NoMemory>
        requires { takes_at self.now place ≡ Some (EachOfFirst form.UserId) }
        ensures { IfOk result (λ list. AreIds list.items (values_at self.now place)) }
    {
        numbers(alloc, self.read_at(place))
    }

    /// The ids of groups that a switch was given.
    pub fn group_ids(&self, alloc: Global, place: usize) -> Result<Vec<i32>, NoMemory>
        requires { takes_at self.now place ≡ Some (EachOfFirst form.GroupId) }
        ensures { IfOk result (λ list. AreIds list.items (values_at self.now place)) }
    {
        numbers(alloc, self.read_at(place))
    }
}

/// The names that words are.
fn names(alloc: Global, words: &[Word]) -> Result<Vec<Bytes>, NoMemory>
    ensures { IfOk result (λ list. list.items ≡ words.now) }
{
    let mut list = Vec::new(alloc);
    for word in words {
        list.push(bytes_of(alloc, word.as_bytes())?)?;
    }
    Ok(list)
}

/// The volumes that values are, each of which is one.
fn volumes(alloc: Global, values: &[Value]) -> Result<Vec<Volume>, NoMemory>
    requires { list_all (λ value. is_some (volume_in value)) values.now ≡ true }
    ensures { IfOk result (λ list. map Some list.items ≡ map volume_in values.now) }
{
    let mut list = Vec::new(alloc);
    for value in values {
        list.push(value.volume().unwrap().copied(alloc)?)?;
    }
    Ok(list)
}

/// The users and groups that values are, each of which is one.
fn entries(alloc: Global, values: &[Value]) -> Result<Vec<Entry>, NoMemory>
    requires { list_all (λ value. is_some (entry_in value)) values.now ≡ true }
    ensures { IfOk result (λ list. map Some list.items ≡ map entry_in values.now) }
{
    let mut list = Vec::new(alloc);
    for value in values {
        list.push(value.entry().unwrap().copied(alloc)?)?;
    }
    Ok(list)
}

/// The numbers with a sign that values are, each of which is one.
fn numbers(alloc: Global, values: &[Value]) -> Result<Vec<i32>, NoMemory>
    requires { list_all (λ value. is_some (signed_in value)) values.now ≡ true }
    ensures { IfOk result (λ list. map Some list.items ≡ map signed_in values.now) }
{
    let mut list = Vec::new(alloc);
    for value in values {
        list.push(value.signed().unwrap())?;
    }
    Ok(list)
}
