//! What the value of a switch is called in a usage.
ghost use Rattle.std.specs.Prelude.{◌≡◌};
ghost use Rattle.tool_help.specs.ValueNames.{new_name, entry_name, address_name, signed_name, value_name};

use afs_commands::Form;
use afs_words::{Operation, Switch};

/// A name that is given by this operation.
fn new_name(operation: Operation) -> &'static str
    ensures { result.now ≡ new_name operation }
{
    match operation {
        Operation::CreateUser => "user name",
        Operation::CreateGroup => "group name",
        _ => "new name",
    }
}

/// A user or group that there is, as the value of this switch.
fn entry_name(switch: Switch) -> &'static str
    ensures { result.now ≡ entry_name switch }
{
    match switch {
        Switch::User => "user name or id",
        Switch::Group => "group name or id",
        Switch::Owner => "owner name or id",
        _ => "user or group name or id",
    }
}

/// An address, as the value of this switch.
fn address_name(switch: Switch) -> &'static str
    ensures { result.now ≡ address_name switch }
{
    match switch {
        Switch::OldAddr => "present address",
        Switch::NewAddr => "new address",
        _ => "server address",
    }
}

/// A number, as the value of this switch.
fn signed_name(switch: Switch) -> &'static str
    ensures { result.now ≡ signed_name switch }
{
    match switch {
        Switch::User => "highest user id",
        Switch::Group => "highest group id",
        _ => "number of groups",
    }
}

/// What a value of this form is called, at this switch of the operation.
pub fn value_name(operation: Operation, switch: Switch, form: Form) -> &'static str
    ensures { result.now ≡ value_name operation switch form }
{
    match form {
        Form::NewVolume => "volume name",
        Form::NewVolumeId => "volume id",
        Form::Volume => "volume name or id",
        Form::Address => address_name(switch),
        Form::Partition => "partition name",
        Form::NewName => new_name(operation),
        Form::Entry => entry_name(switch),
        Form::UserId => "user id",
        Form::GroupId => "group id",
        Form::Signed => signed_name(switch),
        Form::Access => "access letters",
    }
}
